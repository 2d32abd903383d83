// The arrangement that each number stands for.
#![tactic(auto)]

ghost use Rattle.std.specs.Prelude.{◌≡◌, ◌<◌, ltb, IfOk};
ghost use Rattle.base.specs.Lists.{pick};
ghost use Rattle.refusal.specs.Refusals.{checked};
ghost use Rattle.index.specs.Answers.{arranged};
ghost use Rattle.numbering.specs.Coordinates.{co_of, eo_of, e_combo_of, cp_of, ud_ep_of, e_ep_of, ep_of};

use numbering::{Co, Cp, ECombo, EEp, Eo, UdEp};
use refusal::Refusal;

// Refuses a number that isn't below its coordinate's count.
fn check_below(index: u32, count: u32) -> Result<(), Refusal>
    ensures value { result ≡ checked (pick (ltb index count) 0 8) }
    ensures below { IfOk result (λ _. index < count) }
{
    if index < count {
        Ok(())
    } else {
        Err(Refusal::Index)
    }
}

// The last corner gets the twist that brings the sum to 0 modulo 3.
pub fn index_to_co(index: Co) -> Result<[u8; 8], Refusal>
    ensures { result ≡ arranged 2187 co_of index.0 }
{
    check_below(u32::from(index.0), 2187)?;
    Ok(orientation::inner::index_to_co(index))
}

// The last edge gets the flip that brings the sum to 0 modulo 2.
pub fn index_to_eo(index: Eo) -> Result<[u8; 12], Refusal>
    ensures { result ≡ arranged 2048 eo_of index.0 }
{
    check_below(u32::from(index.0), 2048)?;
    Ok(orientation::inner::index_to_eo(index))
}

// The four places hold 0 to 3 in order, the others 4: edges that stand for any others, as in kewb.
pub fn index_to_e_combo(index: ECombo) -> Result<[u8; 12], Refusal>
    ensures { result ≡ arranged 495 e_combo_of index.0 }
{
    check_below(u32::from(index.0), 495)?;
    Ok(numbering::inner::index_to_e_combo(index))
}

pub fn index_to_cp(index: Cp) -> Result<[u8; 8], Refusal>
    ensures { result ≡ arranged 40320 cp_of index.0 }
{
    check_below(u32::from(index.0), 40320)?;
    Ok(permutation::inner::index_to_cp(index))
}

pub fn index_to_ep(index: u32) -> Result<[u8; 12], Refusal>
    ensures { result ≡ arranged 479001600 ep_of index }
{
    check_below(index, 479001600)?;
    let mut ep = [0u8; 12];
    permutation::inner::fill_perm_slice(&mut ep, 0, index as usize);
    Ok(ep)
}

// The other four places hold 4, as in kewb.
pub fn index_to_ud_ep(index: UdEp) -> Result<[u8; 12], Refusal>
    ensures { result ≡ arranged 40320 ud_ep_of index.0 }
{
    check_below(u32::from(index.0), 40320)?;
    Ok(permutation::inner::index_to_ud_ep(index))
}

// The other eight places hold 0, as in kewb.
pub fn index_to_e_ep(index: EEp) -> Result<[u8; 12], Refusal>
    ensures { result ≡ arranged 24 e_ep_of index.0 }
{
    check_below(u32::from(index.0), 24)?;
    Ok(permutation::inner::index_to_e_ep(index))
}
