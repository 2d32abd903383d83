// Orders of pieces as numbers, as kewb counts them.
ghost use Rattle.std.specs.Prelude.{◌≡◌, map, ◌+◌, ◌-◌, ◌≤◌, ◌<◌, length};
ghost use Rattle.base.specs.Lists.{Under};
ghost use Rattle.base.specs.Perm.{number, fact, bump, perm_of};
ghost use Rattle.numbering.specs.Coordinates.{cp_number, ud_ep_number, e_ep_number};
ghost use Rattle.numbering.specs.Coordinates.{cp_of, ud_ep_of, e_ep_of};

use numbering::{Cp, EEp, UdEp};

// The number of the order that the places of `cp` stand in.
pub fn slice_to_index(cp: &[u8]) -> usize
    requires { length cp.now ≤ 12 }
    ensures { result ≡ number cp.now }
{
    let len = cp.len();
    let mut index: usize = 0;
    for i in 0..len {
        index *= len - i;
        // by an index: `cp[i + 1..].iter().filter(..).count()` took twice the time, over both blocks of tables a third more
        for j in i + 1..len {
            if cp[i] > cp[j] {
                index += 1;
            }
        }
    }
    index
}

// Makes room for `d`: what is `d` or above goes up by one.
fn raise(s: &mut [u8], d: u8)
    requires { Under 255 s.old }
    ensures { s.new ≡ map (bump d) s.old }
{
    for x in s.iter_mut() {
        if d <= *x {
            *x += 1;
        }
    }
}

// The permutation of the number `index`, each piece `base` higher, from the last place to the first.
pub fn fill_perm_slice(s: &mut [u8], base: u8, index: usize)
    requires { (length s.old ≤ 12) × (base ≤ 200) × (index < fact (length s.old)) }
    ensures { s.new ≡ map (λ x. base + x) (perm_of (length s.old) index) }
{
    let n = s.len();
    let mut rest = index;
    for i in (0..n).rev() {
        let d = base + (rest % (n - i)) as u8;
        rest /= n - i;
        s[i] = d;
        raise(&mut s[i + 1..], d);
    }
}

pub fn cp_to_index(cp: [u8; 8]) -> Cp
    ensures { result.0 ≡ cp_number cp }
{
    Cp(slice_to_index(&cp) as u16)
}

pub fn index_to_cp(index: Cp) -> [u8; 8]
    requires { index.0 < 40320 }
    ensures { result ≡ cp_of index.0 }
{
    let mut cp = [0u8; 8];
    fill_perm_slice(&mut cp, 0, index.0 as usize);
    cp
}

pub fn ud_ep_to_index(ep: [u8; 12]) -> UdEp
    ensures { result.0 ≡ ud_ep_number ep }
{
    UdEp(slice_to_index(&ep[4..12]) as u16)
}

pub fn index_to_ud_ep(index: UdEp) -> [u8; 12]
    requires { index.0 < 40320 }
    ensures { result ≡ ud_ep_of index.0 }
{
    let mut ep = [4u8; 12];
    fill_perm_slice(&mut ep[4..12], 4, index.0 as usize);
    ep
}

pub fn e_ep_to_index(ep: [u8; 12]) -> EEp
    ensures { result.0 ≡ e_ep_number ep }
{
    EEp(slice_to_index(&ep[0..4]) as u16)
}

pub fn index_to_e_ep(index: EEp) -> [u8; 12]
    requires { index.0 < 24 }
    ensures { result ≡ e_ep_of index.0 }
{
    let mut ep = [0u8; 12];
    fill_perm_slice(&mut ep[0..4], 0, index.0 as usize);
    ep
}
