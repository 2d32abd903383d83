// From columns to moves, and from the last move to the columns that may follow it.
ghost use Rattle.std.specs.Prelude.{◌≡◌, ◌∷◌, ◌<◌, ◌/◌, min, get_or};
ghost use Rattle.std.specs.Int.Count.{count_trailing_zeros};
ghost use Rattle.base.specs.Sets.{columns_of};
ghost use Rattle.moves.specs.Moves.{all_moves, phase2_moves, phase1_move, phase2_move, open_of};

use crate::{ALL_MOVES, PHASE1_OPEN, PHASE2_MOVES, PHASE2_OPEN};

// The move of a column of phase 1.
pub fn phase1_move(j: usize) -> u8
    requires { j < 18 }
    ensures { result ≡ get_or all_moves j 0 }
{
    ALL_MOVES[j]
}

// The move of a column of phase 2.
pub fn phase2_move(j: usize) -> u8
    requires { j < 10 }
    ensures { result ≡ get_or phase2_moves j 0 }
{
    PHASE2_MOVES[j]
}

// The layer of the last move, and 6 if there was none.
fn last_layer(last: u8) -> usize
    ensures { result ≡ min (last / 3) 6 }
{
    ((last / 3) as usize).min(6)
}

// The columns of phase 1 whose moves may follow `last`.
pub fn phase1_open(last: u8) -> u32
    ensures { columns_of result ≡ open_of phase1_move 18 last }
{
    PHASE1_OPEN[last_layer(last)]
}

// The columns of phase 2 whose moves may follow `last`.
pub fn phase2_open(last: u8) -> u32
    ensures { columns_of result ≡ open_of phase2_move 10 last }
{
    PHASE2_OPEN[last_layer(last)]
}

// The lowest column of a set.
pub fn first_column(set: u32) -> usize
    requires { 0 < set }
    ensures { result ≡ count_trailing_zeros 32 set }
{
    u32::trailing_zeros(set) as usize
}

// A set without its lowest column.
pub fn other_columns(set: u32) -> u32
    requires { 0 < set }
    ensures { columns_of set ≡ count_trailing_zeros 32 set ∷ columns_of result }
{
    set & (set - 1)
}
