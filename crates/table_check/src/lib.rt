// The check of the ten tables, which kewb has not.
#![tactic(auto)]

ghost use Rattle.table_check.specs.Check.{Checks};

use move_table::MOVES_LEN;
use pruning_table::PRUNES_LEN;

pub mod inner;

// What the check of all ten tables finds wrong.
#[derive(Clone, Copy, Debug, PartialEq, Eq)]
pub enum CheckError {
    // 10: a block has the wrong length
    Length,
    // 13: the lowest table that isn't true, and its lowest bad entry
    Bad { table: u8, entry: usize },
}

// The check of all ten tables: the lowest bad table, and its lowest bad entry.
pub fn check_tables(moves: &[u16], prunes: &[u8]) -> Result<(), CheckError>
    ensures { Checks moves.now prunes.now result }
{
    if moves.len() != MOVES_LEN || prunes.len() != PRUNES_LEN {
        return Err(CheckError::Length);
    }
    inner::check_move_tables(moves)?;
    inner::check_prune_tables(moves, prunes)
}
