// Pairs reached in one more move, sweep after sweep. All of it is inlined: a caller that gives constants as counts has a loop by these constants, which
// takes a quarter less time.
ghost use Rattle.std.specs.Prelude.{◌≡◌, false, ◌+◌, ◌<◌, length};
ghost use Rattle.pair_table.specs.Answers.{Expanded, Outcome};
ghost use Rattle.pair_table.specs.Tables.{Counts};
ghost use Rattle.pair_table.specs.Over.{step_by, pairs_of, ReadyFor, LayerBy, OutcomeBy};

use pair_table::inner::{neighbour_of, rows_of};
use pair_table::{BuildError, Pairs};

// Each neighbour of pair p that holds 255 gets d.
#[inline(always)]
fn expand(pairs: &Pairs, tab: &mut [u8], p: usize, d: u8)
    requires ready { ReadyFor pairs.now tab.old }
    requires p_bound { p < pairs_of pairs.now }
    ensures tab_len_unchanged { length tab.new ≡ length tab.old }
    ensures expanded { Expanded (step_by pairs.now) p d pairs.now.moves tab.old tab.new }
{
    // a copy, which no write to the table can change: it stays in registers
    let held = *pairs;
    let (i, j) = rows_of(&held, p);
    for m in 0..held.moves {
        let q = neighbour_of(&held, i, j, m);
        if tab[q] == 255 {
            tab[q] = d;
        }
    }
}

// Expands every pair at distance d, and says whether there was one. What is found holds d + 1, so it waits for the next sweep.
#[inline(always)]
fn sweep(pairs: &Pairs, tab: &mut [u8], d: u8) -> bool
    requires ready { ReadyFor pairs.now tab.old }
    requires d_bound { d < 254 }
    requires layer { LayerBy pairs.now d tab.old }
    ensures tab_len_unchanged { length tab.new ≡ length tab.old }
    ensures layer_2 { LayerBy pairs.now (d + 1) tab.new }
    ensures tab_unchanged { result ≡ false → tab.new ≡ tab.old }
{
    let mut met = false;
    // by index: `expand` writes anywhere in the table
    for p in 0..tab.len() {
        if tab[p] == d {
            expand(pairs, tab, p, d + 1);
            met = true;
        }
    }
    met
}

// Sweeps for one distance after the other, while pairs are found.
#[inline(always)]
fn flood(pairs: &Pairs, tab: &mut [u8])
    requires ready { ReadyFor pairs.now tab.old }
    requires layer { LayerBy pairs.now 0 tab.old }
    ensures tab_len_unchanged { length tab.new ≡ length tab.old }
    ensures layer_2 { LayerBy pairs.now 254 tab.new }
{
    for d in 0..254u8 {
        if !sweep(pairs, tab, d) {
            return;
        }
    }
}

// Every pair gets its least number of moves from pair 0.
#[inline(always)]
pub fn get_pairs_table(pairs: &Pairs, tab: &mut [u8]) -> Result<(), BuildError>
    ensures { OutcomeBy pairs.now tab.old tab.new result }
{
    if tab.len() != pairs.count() {
        return Err(BuildError::Length);
    }
    if !pairs.entries_below() {
        return Err(BuildError::Entry);
    }
    tab.fill(255);
    tab[0] = 0;
    flood(pairs, tab);
    if tab.contains(&255) {
        return Err(BuildError::Unreached);
    }
    Ok(())
}

// The same by two move tables whose lengths are still to be tested.
#[inline(always)]
pub fn get_prune_table(
    t1: &[u16],
    t2: &[u16],
    tab: &mut [u8],
    n1: usize,
    n2: usize,
    k: usize,
) -> Result<(), BuildError>
    requires { Counts n1 n2 k }
    ensures { Outcome t1.now t2.now n1 n2 k tab.old tab.new result }
{
    match Pairs::new(t1, t2, n1, n2, k) {
        Some(pairs) => get_pairs_table(&pairs, tab),
        None => Err(BuildError::Length),
    }
}
