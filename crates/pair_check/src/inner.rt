// Where the rule of a pruning table first fails.
ghost use Rattle.std.specs.Prelude.{◌≡◌, ◌<◌, length};
ghost use Rattle.pair_table.specs.Answers.{Decides};
ghost use Rattle.pair_table.specs.Over.{step_by, pairs_of};
ghost use Rattle.pair_table.specs.Pairs.{held, Fine};
ghost use Rattle.pair_check.specs.Rule.{Tells};

use pair_table::Pairs;
use pair_table::inner::{neighbour_of, rows_of};

// What the table holds at q: 255 past its end, so that no entry of a move table leads out of it.
fn held_at(tab: &[u8], q: usize) -> u8
    ensures { result ≡ held tab.now q }
{
    tab.get(q).copied().unwrap_or(255)
}

// Whether the rule holds at pair p.
fn pair_fine(pairs: &Pairs, tab: &[u8], p: usize) -> bool
    requires sized { length tab.now ≡ pairs_of pairs.now }
    requires p_bound { p < pairs_of pairs.now }
    ensures { Decides (Fine (step_by pairs.now) pairs.now.moves (held tab.now) p) result }
{
    let v = tab[p];
    if p == 0 {
        return v == 0;
    }
    if v == 0 {
        return false;
    }
    let (i, j) = rows_of(pairs, p);
    let mut one = false;
    for m in 0..pairs.moves {
        let w = held_at(tab, neighbour_of(pairs, i, j, m));
        if w < v - 1 {
            return false;
        }
        if w == v - 1 {
            one = true;
        }
    }
    one
}

// The lowest pair at which the rule fails. The entries of the move tables are anybody's.
pub fn first_bad(pairs: &Pairs, tab: &[u8]) -> Option<usize>
    requires { length tab.now ≡ pairs_of pairs.now }
    ensures { Tells (Fine (step_by pairs.now) pairs.now.moves (held tab.now)) (pairs_of pairs.now) result }
{
    for p in 0..tab.len() {
        if !pair_fine(pairs, tab, p) {
            return Some(p);
        }
    }
    None
}
