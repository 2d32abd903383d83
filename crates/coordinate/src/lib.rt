// The seven coordinates by their numbers, on lent memory, for the C interface: 0 co, 1 eo, 2 e_combo, 3 cp, 4 ud_ep, 5 e_ep, 6 ep.
#![tactic(auto)]

ghost use Rattle.std.specs.Prelude.{◌≡◌, ◌<◌, List, ℕ, Result, eqb, length};
ghost use Rattle.base.specs.Lists.{pick};
ghost use Rattle.refusal.specs.declared.Refusal.{Refusal};
ghost use Rattle.refusal.specs.Refusals.{answered, checked, code, value_or};
ghost use Rattle.coordinate.specs.Calls.{kind_at, narrowed, index_number, index_left, arrange_number, arrange_left};

use numbering::{Co, Cp, ECombo, EEp, Eo, UdEp};
use refusal::Refusal;

// The places of an arrangement; 10 for another number of them.
fn exactly<const N: usize>(places: &[u8]) -> Result<[u8; N], Refusal>
    ensures { result ≡ answered (pick (eqb (length places.now) N) 0 10) places.now }
{
    match places.try_into() {
        Ok(all) => Ok(all),
        Err(_) => Err(Refusal::Length),
    }
}

// A number that is too large for the kinds of 16 bits is none of theirs, nor is 65535.
fn narrow(n: u32) -> u16
    ensures { result ≡ narrowed n }
{
    n.min(65535) as u16
}

// The number of an arrangement.
fn index_of(kind: u8, places: &[u8]) -> Result<u32, Refusal>
    ensures { result ≡ answered (index_number kind places.now) ((kind_at kind).number places.now) }
{
    match kind {
        0 => Ok(u32::from(index::co_to_index(exactly(places)?)?.0)),
        1 => Ok(u32::from(index::eo_to_index(exactly(places)?)?.0)),
        2 => Ok(u32::from(index::e_combo_to_index(exactly(places)?)?.0)),
        3 => Ok(u32::from(index::cp_to_index(exactly(places)?)?.0)),
        4 => Ok(u32::from(index::ud_ep_to_index(exactly(places)?)?.0)),
        5 => Ok(u32::from(index::e_ep_to_index(exactly(places)?)?.0)),
        6 => index::ep_to_index(exactly(places)?),
        _ => Err(Refusal::Length),
    }
}

// Leaves an arrangement in as many places; 10 for another number of them.
fn leave<const N: usize>(
    arrangement: Result<[u8; N], Refusal>,
    places: &mut [u8],
) -> Result<(), Refusal>
    ensures value { code result ≡ pick (eqb (length places.old) N) (code arrangement.entry) 10 }
    ensures places_after { places.new ≡ pick (eqb (length places.old) N) (value_or places.old arrangement.entry) places.old }
{
    if places.len() != N {
        return Err(Refusal::Length);
    }
    places.copy_from_slice(&arrangement?);
    Ok(())
}

// The number of an arrangement: 4, 5 or 6 outside the coordinate's domain, 10 for another number of places.
pub fn to_index(kind: u8, places: &[u8], number: &mut u32) -> Result<(), Refusal>
    ensures value { code result ≡ index_number kind places.now }
    ensures number_after { number.new ≡ index_left kind places.now number.old }
{
    *number = index_of(kind, places)?;
    Ok(())
}

// How many places the arrangement of a coordinate has.
fn places_of(kind: u8) -> usize
    requires { kind < 7 }
    ensures { result ≡ (kind_at kind).places }
{
    match kind {
        0 => 8,
        3 => 8,
        _ => 12,
    }
}

// The arrangement of a number, in as many places as it has.
fn arrange(kind: u8, n: u32, places: &mut [u8]) -> Result<(), Refusal>
    ensures value { code result ≡ arrange_number kind n places.old }
    ensures places_after { places.new ≡ arrange_left kind n places.old }
{
    match kind {
        0 => leave(places::index_to_co(Co(narrow(n))), places),
        1 => leave(places::index_to_eo(Eo(narrow(n))), places),
        2 => leave(places::index_to_e_combo(ECombo(narrow(n))), places),
        3 => leave(places::index_to_cp(Cp(narrow(n))), places),
        4 => leave(places::index_to_ud_ep(UdEp(narrow(n))), places),
        5 => leave(places::index_to_e_ep(EEp(narrow(n))), places),
        6 => leave(places::index_to_ep(n), places),
        _ => Err(Refusal::Length),
    }
}

// The arrangement of a number: 8 where it isn't below the coordinate's count, 10 for another number of places.
pub fn from_index(kind: u8, n: u32, places: &mut [u8]) -> Result<(), Refusal>
    ensures value { code result ≡ arrange_number kind n places.old }
    ensures places_after { places.new ≡ arrange_left kind n places.old }
{
    // before anything is worked out
    if kind > 6 || places.len() != places_of(kind) {
        return Err(Refusal::Length);
    }
    arrange(kind, n, places)
}
