// The coordinates: kewb's src/cube/index.rs, but for those of the cross and of the first two layers.
#![tactic(auto)]

ghost use Rattle.std.specs.Prelude.{◌≡◌};
ghost use Rattle.index.specs.Answers.{co_answer, eo_answer, e_combo_answer, cp_answer, ud_ep_answer, e_ep_answer, ep_answer};

use numbering::{Co, Cp, ECombo, EEp, Eo, UdEp};
use pieces::inner::{all_differ, in_range};
use refusal::Refusal;

// The twists of all corners but the last, in base 3.
pub fn co_to_index(corner: [u8; 8]) -> Result<Co, Refusal>
    ensures { result ≡ co_answer corner }
{
    if !in_range(&corner, 3) {
        return Err(Refusal::Range);
    }
    Ok(orientation::inner::co_to_index(corner))
}

// The flips of all edges but the last, in base 2.
pub fn eo_to_index(edge: [u8; 12]) -> Result<Eo, Refusal>
    ensures { result ≡ eo_answer edge }
{
    if !in_range(&edge, 2) {
        return Err(Refusal::Range);
    }
    Ok(orientation::inner::eo_to_index(edge))
}

// Which four places hold an edge below 4.
pub fn e_combo_to_index(edge: [u8; 12]) -> Result<ECombo, Refusal>
    ensures { result ≡ e_combo_answer edge }
{
    if !in_range(&edge, 12) {
        return Err(Refusal::Edge);
    }
    if numbering::inner::count_below_4(&edge) != 4 {
        return Err(Refusal::Range);
    }
    Ok(numbering::inner::e_combo_to_index(edge))
}

// The order of the corners.
pub fn cp_to_index(cp: [u8; 8]) -> Result<Cp, Refusal>
    ensures { result ≡ cp_answer cp }
{
    if !in_range(&cp, 8) {
        return Err(Refusal::Corner);
    }
    if !all_differ(&cp) {
        return Err(Refusal::Range);
    }
    Ok(permutation::inner::cp_to_index(cp))
}

// The order of all twelve edges.
pub fn ep_to_index(ep: [u8; 12]) -> Result<u32, Refusal>
    ensures { result ≡ ep_answer ep }
{
    if !in_range(&ep, 12) {
        return Err(Refusal::Edge);
    }
    if !all_differ(&ep) {
        return Err(Refusal::Range);
    }
    Ok(permutation::inner::slice_to_index(&ep) as u32)
}

// The order of the edges at the eight places of the upper and the lower layer.
pub fn ud_ep_to_index(ep: [u8; 12]) -> Result<UdEp, Refusal>
    ensures { result ≡ ud_ep_answer ep }
{
    if !in_range(&ep, 12) {
        return Err(Refusal::Edge);
    }
    if !all_differ(&ep[4..12]) {
        return Err(Refusal::Range);
    }
    Ok(permutation::inner::ud_ep_to_index(ep))
}

// The order of the edges at the four places of the middle layer.
pub fn e_ep_to_index(ep: [u8; 12]) -> Result<EEp, Refusal>
    ensures { result ≡ e_ep_answer ep }
{
    if !in_range(&ep, 12) {
        return Err(Refusal::Edge);
    }
    if !all_differ(&ep[0..4]) {
        return Err(Refusal::Range);
    }
    Ok(permutation::inner::e_ep_to_index(ep))
}
