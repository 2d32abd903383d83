// One pruning table by its name, and one at any counts.
#![tactic(auto)]

ghost use Rattle.move_row.specs.Tables.{table_at, columns};
ghost use Rattle.pair_table.specs.Answers.{Outcome, AnyOutcome};
ghost use Rattle.pruning_table.specs.Check.{prune_number, first_of, second_of, rows};

use pair_build::inner;
use pair_table::{BuildError, Pairs};
use pruning_table::PruneTable;

// A pruning table over two move tables of any numbers of rows and moves.
pub fn get_prune_table(
    first: &[u16],
    second: &[u16],
    table: &mut [u8],
    rows1: usize,
    rows2: usize,
    moves: usize,
) -> Result<(), BuildError>
    ensures { AnyOutcome first.now second.now rows1 rows2 moves table.old table.new result }
{
    match Pairs::new(first, second, rows1, rows2, moves) {
        Some(pairs) => inner::get_pairs_table(&pairs, table),
        None => Err(BuildError::Length),
    }
}

// One of the four, over its two move tables.
pub fn get_table(
    t: PruneTable,
    first: &[u16],
    second: &[u16],
    table: &mut [u8],
) -> Result<(), BuildError>
    ensures { Outcome first.now second.now (rows (first_of (prune_number t))) (rows (second_of (prune_number t)))
        (columns (table_at (first_of (prune_number t)))) table.old table.new result }
{
    // each by its own constants: the compiler then builds each table by a loop of its own
    match t {
        PruneTable::CoE => inner::get_prune_table(first, second, table, 2187, 495, 18),
        PruneTable::EoE => inner::get_prune_table(first, second, table, 2048, 495, 18),
        PruneTable::CpE => inner::get_prune_table(first, second, table, 40320, 24, 10),
        PruneTable::EpE => inner::get_prune_table(first, second, table, 40320, 24, 10),
    }
}
