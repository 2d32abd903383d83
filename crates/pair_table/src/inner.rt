// What the builder and the users of its tables share: steps from pair to pair, and tests.
ghost use Rattle.std.specs.Prelude.{◌≡◌, ◌+◌, ◌*◌, ◌/◌, ◌%◌, ◌≤◌, ◌<◌, length, get_or};
ghost use Rattle.base.specs.Lists.{Under};
ghost use Rattle.pair_table.specs.Tables.{Counts};
ghost use Rattle.pair_table.specs.Answers.{Decides};

use crate::Pairs;

// The pair after move m of the pair (i, j).
pub fn neighbour(t1: &[u16], t2: &[u16], n2: usize, k: usize, i: usize, j: usize, m: usize) -> usize
    requires { (i * k + m < length t1.now) × (j * k + m < length t2.now) × (n2 ≤ 65536) }
    ensures { result ≡ get_or t1.now (i * k + m) 0 * n2 + get_or t2.now (j * k + m) 0 }
{
    let a = t1[i * k + m] as usize;
    let b = t2[j * k + m] as usize;
    a * n2 + b
}

// The same of two tables whose lengths were tested.
pub fn neighbour_of(pairs: &Pairs, i: usize, j: usize, m: usize) -> usize
    requires { (i < pairs.now.rows1) × (j < pairs.now.rows2) × (m < pairs.now.moves) }
    ensures { result ≡ get_or pairs.now.first.now (i * pairs.now.moves + m) 0 * pairs.now.rows2 + get_or pairs.now.second.now (j * pairs.now.moves + m) 0 }
{
    neighbour(pairs.first, pairs.second, pairs.rows2, pairs.moves, i, j, m)
}

// The two rows of pair p. Its number fits 32 bits, in which a division is quicker.
pub fn rows_of(pairs: &Pairs, p: usize) -> (usize, usize)
    requires { p < pairs.now.rows1 * pairs.now.rows2 }
    ensures first { result.0 ≡ p / pairs.now.rows2 }
    ensures second { result.1 ≡ p % pairs.now.rows2 }
{
    let (p, n) = (p as u32, pairs.rows2 as u32);
    ((p / n) as usize, (p % n) as usize)
}

// Whether there are tables of such counts.
pub fn counts_fit(n1: usize, n2: usize, k: usize) -> bool
    ensures { Decides (Counts n1 n2 k) result }
{
    0 < n1 && n1 <= 65536 && 0 < n2 && n2 <= 65536 && k <= 256
}

// Whether every entry of a move table is below its count.
pub fn all_below(t: &[u16], n: usize) -> bool
    ensures { Decides (Under n t.now) result }
{
    t.iter().all(|e| (*e as usize) < n)
}
