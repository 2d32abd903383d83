// A pruning table over any two move tables: the builder in kewb's src/two_phase/pruning.rs.
#![tactic(auto)]

ghost use Rattle.std.specs.Prelude.{◌≡◌, ◌*◌, ◌↔◌, IsTrue, MatchOption, Err};
ghost use Rattle.base.specs.Lists.{Under};
ghost use Rattle.pair_table.specs.Answers.{number_of};
ghost use Rattle.pair_table.specs.Tables.{Fits};
ghost use Rattle.refusal.specs.Refusals.{number};

use refusal::Refusal;

pub mod inner;

// Why a pruning table is not built.
#[derive(Clone, Copy, Debug, PartialEq, Eq)]
pub enum BuildError {
    // 10: a lent slice has the wrong length
    Length,
    // 11: an entry of a move table is not below its count
    Entry,
    // 14: some pair has no walk of at most 254 moves
    Unreached,
}

impl From<BuildError> for Refusal {
    ghost from_gives = { λ e r. number r ≡ number_of (Err e) };

    fn from(e: BuildError) -> Refusal {
        match e {
            BuildError::Length => Refusal::Length,
            BuildError::Entry => Refusal::Entry,
            BuildError::Unreached => Refusal::Unreached,
        }
    }
}

// Two flat move tables by the same moves, whose lengths are tested. A pair is a row of the first and one of the second.
#[derive(Clone, Copy)]
pub struct Pairs<'a> {
    pub first: &'a [u16],
    pub second: &'a [u16],
    pub rows1: usize,
    pub rows2: usize,
    pub moves: usize,
    pub ghost fits: { Fits first.now second.now rows1 rows2 moves },
}

impl<'a> Pairs<'a> {
    // The pairs of two tables, where the counts and the lengths are right.
    pub fn new(
        first: &'a [u16],
        second: &'a [u16],
        rows1: usize,
        rows2: usize,
        moves: usize,
    ) -> Option<Self>
        ensures { MatchOption result (Fits first.now second.now rows1 rows2 moves → ⊥)
            (λ p. (p.first.now ≡ first.now) × (p.second.now ≡ second.now) × (p.rows1 ≡ rows1) × (p.rows2 ≡ rows2) × (p.moves ≡ moves)) }
    {
        if !inner::counts_fit(rows1, rows2, moves)
            || first.len() != rows1 * moves
            || second.len() != rows2 * moves
        {
            return None;
        }
        Some(Pairs {
            first,
            second,
            rows1,
            rows2,
            moves,
        })
    }

    // How many pairs there are.
    pub fn count(&self) -> usize
        ensures { result ≡ self.now.rows1 * self.now.rows2 }
    {
        self.rows1 * self.rows2
    }

    // Whether every entry of both tables is below its count.
    pub fn entries_below(&self) -> bool
        ensures { IsTrue result ↔ (Under self.now.rows1 self.now.first.now × Under self.now.rows2 self.now.second.now) }
    {
        inner::all_below(self.first, self.rows1) && inner::all_below(self.second, self.rows2)
    }
}
