// The builders of the pruning tables by the tables' numbers, on lent memory, for the C interface: what a builder finds wrong, a
// `pair_table::BuildError`, is by `?` the refusal of its number.
#![tactic(auto)]

ghost use Rattle.refusal.specs.Refusals.{code};
ghost use Rattle.table_calls.specs.Calls.{PruneCall, PairsCall, PrunesCall};

use pruning_table::PruneTable;
use refusal::Refusal;

// Pruning table t, 6 to 9, by its two move tables. Another number is no pruning table's, so that no length fits.
pub fn get_prune_table(
    t: u8,
    first: &[u16],
    second: &[u16],
    table: &mut [u8],
) -> Result<(), Refusal>
    ensures { PruneCall t first.now second.now table.old table.new (code result) }
{
    match PruneTable::from_number(t) {
        Some(t) => Ok(prune_tables::get_table(t, first, second, table)?),
        None => Err(Refusal::Length),
    }
}

// A pruning table by two move tables of any numbers of rows and moves.
pub fn get_pairs_table(
    first: &[u16],
    second: &[u16],
    table: &mut [u8],
    rows1: usize,
    rows2: usize,
    moves: usize,
) -> Result<(), Refusal>
    ensures { PairsCall first.now second.now rows1 rows2 moves table.old table.new (code result) }
{
    Ok(prune_tables::get_prune_table(first, second, table, rows1, rows2, moves)?)
}

// All four in their block, by the block of the six move tables.
pub fn get_prune_tables(moves: &[u16], prunes: &mut [u8]) -> Result<(), Refusal>
    ensures { PrunesCall moves.now prunes.old prunes.new (code result) }
{
    Ok(prune_block::get_prune_tables(moves, prunes)?)
}
