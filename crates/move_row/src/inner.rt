// What stands below a row of a move table: the moves of its columns, the cubes of the moves, and the arrangement of a row.
ghost use Rattle.std.specs.Prelude.{◌≡◌, ◌++◌, ◌<◌, get_or, replicate, take};
ghost use Rattle.move_row.specs.Tables.{number, table_at, columns, move_cubes, row_places};

use crate::MoveTable;
use columns::inner::{phase1_move, phase2_move};
use cubie::CubieCube;
use cubie::inner::move_state;
use numbering::inner::index_to_e_combo;
use numbering::{Co, Cp, ECombo, EEp, Eo, UdEp};
use orientation::inner::{index_to_co, index_to_eo};
use permutation::inner::{index_to_cp, index_to_e_ep, index_to_ud_ep};
use std::array;

// The move of column j.
pub fn column_move(t: MoveTable, j: usize) -> usize
    requires { j < columns (table_at (number t)) }
    ensures { result ≡ get_or (table_at (number t)).moves j 0 }
{
    let m = match t {
        MoveTable::Co | MoveTable::Eo | MoveTable::ECombo => phase1_move(j),
        MoveTable::Cp | MoveTable::UdEp | MoveTable::EEp => phase2_move(j),
    };
    m as usize
}

// The cubes of the 18 moves by their numbers.
pub fn move_cubes() -> [CubieCube; 18]
    ensures { result ≡ move_cubes }
{
    array::from_fn(|m| move_state(m as u8))
}

// An arrangement of eight places, and 0 at four more.
fn widened(a: [u8; 8]) -> [u8; 12]
    ensures { result ≡ a ++ replicate 4 0 }
{
    let mut out = [0; 12];
    out[..8].copy_from_slice(&a);
    out
}

// The arrangement of row i, in as many of the first places as it has, and 0 at those that it hasn't.
pub fn row_places(t: MoveTable, i: u16) -> [u8; 12]
    requires { i < (table_at (number t)).kind.count }
    ensures value { result ≡ row_places (table_at (number t)).kind i }
    ensures arrangement { take (table_at (number t)).kind.places result ≡ (table_at (number t)).kind.arrangement i }
{
    match t {
        MoveTable::Co => widened(index_to_co(Co(i))),
        MoveTable::Eo => index_to_eo(Eo(i)),
        MoveTable::ECombo => index_to_e_combo(ECombo(i)),
        MoveTable::Cp => widened(index_to_cp(Cp(i))),
        MoveTable::UdEp => index_to_ud_ep(UdEp(i)),
        MoveTable::EEp => index_to_e_ep(EEp(i)),
    }
}
