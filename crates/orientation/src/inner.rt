// Orientations as numbers, the places as digits in base 3 or 2.
ghost use Rattle.std.specs.Prelude.{◌≡◌, ◌+◌, ◌-◌, ◌≤◌, ◌<◌, ◌^◌, length};
ghost use Rattle.base.specs.Digits.{digits, orientation_of};
ghost use Rattle.base.specs.Lists.{Under};
ghost use Rattle.numbering.specs.Coordinates.{co_number, eo_number};
ghost use Rattle.numbering.specs.Coordinates.{co_of, eo_of};

use numbering::{Co, Eo};

// The places as digits in base `cases`, the first the highest.
fn orientation_to_index(s: &[u8], cases: u8) -> u16
    requires { (0 < cases) × (cases ^ length s.now ≤ 65536) × Under cases s.now }
    ensures { result ≡ digits cases s.now }
{
    let mut index: u16 = 0;
    for x in s {
        index = index * cases as u16 + *x as u16;
    }
    index
}

// The digits of `index`, from the last place but one to the first; the last place brings the sum to 0 modulo `cases`.
fn index_to_orientation<const N: usize>(cases: u8, index: u16) -> [u8; N]
    requires { (0 < N) × (N ≤ 12) × (0 < cases) × (cases ≤ 20) × (index < cases ^ (N - 1)) }
    ensures { result ≡ orientation_of cases (N - 1) index }
{
    let mut s = [0u8; N];
    let last = N - 1;
    let mut rest = index;
    let mut sum: u8 = 0;
    for i in (0..last).rev() {
        let d = (rest % cases as u16) as u8;
        rest /= cases as u16;
        s[i] = d;
        sum += d;
    }
    s[last] = (cases - sum % cases) % cases;
    s
}

pub fn co_to_index(corner: [u8; 8]) -> Co
    requires { Under 3 corner }
    ensures { result.0 ≡ co_number corner }
{
    Co(orientation_to_index(&corner[0..7], 3))
}

pub fn index_to_co(index: Co) -> [u8; 8]
    requires { index.0 < 2187 }
    ensures { result ≡ co_of index.0 }
{
    index_to_orientation(3, index.0)
}

pub fn eo_to_index(edge: [u8; 12]) -> Eo
    requires { Under 2 edge }
    ensures { result.0 ≡ eo_number edge }
{
    Eo(orientation_to_index(&edge[0..11], 2))
}

pub fn index_to_eo(index: Eo) -> [u8; 12]
    requires { index.0 < 2048 }
    ensures { result ≡ eo_of index.0 }
{
    index_to_orientation(2, index.0)
}
