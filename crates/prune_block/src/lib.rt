// All four pruning tables in their block.
#![tactic(auto)]

ghost use Rattle.pruning_table.specs.Block.{AllOutcome};

use move_table::MOVES_LEN;
use pair_table::BuildError;
use pruning_table::PRUNES_LEN;

pub mod inner;

// All four tables in one block, by the move tables of theirs.
pub fn get_prune_tables(moves: &[u16], prunes: &mut [u8]) -> Result<(), BuildError>
    ensures { AllOutcome moves.now prunes.old prunes.new result }
{
    if moves.len() != MOVES_LEN || prunes.len() != PRUNES_LEN {
        return Err(BuildError::Length);
    }
    if !inner::tables_below(moves) {
        return Err(BuildError::Entry);
    }
    if inner::fill_all(moves, prunes) {
        return Err(BuildError::Unreached);
    }
    Ok(())
}
