// The builders of the move tables and the check of all ten, on lent memory, for the C interface.
#![tactic(auto)]

ghost use Rattle.std.specs.Prelude.{◌≡◌};
ghost use Rattle.refusal.specs.Refusals.{code};
ghost use Rattle.table_calls.specs.Calls.{table_number, table_left, block_number, block_left, CheckCall};

use move_row::MoveTable;
use refusal::Refusal;
use table_check::CheckError;

// Move table t, 0 to 5. A number above 5 is no move table's, so that no length fits.
pub fn get_move_table(t: u8, table: &mut [u16]) -> Result<(), Refusal>
    ensures value { code result ≡ table_number t table.old }
    ensures table_after { table.new ≡ table_left t table.old }
{
    match MoveTable::from_number(t) {
        Some(t) => move_tables::get_move_table(t, table),
        None => Err(Refusal::Length),
    }
}

// All six in their block.
pub fn get_move_tables(moves: &mut [u16]) -> Result<(), Refusal>
    ensures value { code result ≡ block_number moves.old }
    ensures moves_after { moves.new ≡ block_left moves.old }
{
    move_tables::get_move_tables(moves)
}

// The check of all ten: 0, 10, or 13 + 256 * the lowest bad table + 65536 * its lowest bad entry.
pub fn check_tables(moves: &[u16], prunes: &[u8]) -> u64
    ensures { CheckCall moves.now prunes.now result }
{
    match table_check::check_tables(moves, prunes) {
        Ok(()) => 0,
        Err(CheckError::Length) => 10,
        Err(CheckError::Bad { table, entry }) => {
            13 + 256 * (table as u64) + 65536 * (entry as u64)
        }
    }
}
