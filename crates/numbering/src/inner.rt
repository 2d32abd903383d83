// The numberings, with what a caller must show, and the loops under them.
ghost use Rattle.std.specs.Prelude.{◌≡◌, ◌+◌, ◌-◌, ◌≤◌, ◌<◌, length};
ghost use Rattle.base.specs.Combo.{choose};
ghost use Rattle.base.specs.Perm.{below};
ghost use Rattle.numbering.specs.Coordinates.{e_combo_number};
ghost use Rattle.numbering.specs.Coordinates.{e_combo_of};

use crate::ECombo;

// How many of `s` are below 4.
pub fn count_below_4(s: &[u8]) -> u8
    requires { length s.now ≤ 12 }
    ensures { result ≡ below 4 s.now }
{
    s.iter().filter(|x| **x < 4).count() as u8
}

// n over k.
fn calculate_combo(n: u8, k: u8) -> u16
    requires { (n < 12) × (k < 5) }
    ensures { result ≡ choose n k }
{
    if k > n {
        return 0;
    }
    let mut result: u16 = 1;
    for i in 0..k as u16 {
        result *= n as u16 - i;
        result /= i + 1;
    }
    result
}

pub fn e_combo_to_index(edge: [u8; 12]) -> ECombo
    requires { below 4 edge ≡ 4 }
    ensures { result.0 ≡ e_combo_number edge }
{
    let mut index: u16 = 0;
    let mut k: u8 = 4;
    for i in (0..12u8).rev() {
        if edge[i as usize] < 4 {
            index += calculate_combo(i, k);
            k -= 1;
        }
    }
    ECombo(index)
}

pub fn index_to_e_combo(index: ECombo) -> [u8; 12]
    requires { index.0 < 495 }
    ensures { result ≡ e_combo_of index.0 }
{
    let mut combo = [4u8; 12];
    let mut rest = index.0;
    let mut k: u8 = 4;
    for i in (0..12u8).rev() {
        let c = calculate_combo(i, k);
        if rest >= c {
            combo[i as usize] = k - 1;
            rest -= c;
            k -= 1;
        }
    }
    combo
}
