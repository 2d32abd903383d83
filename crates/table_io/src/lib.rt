// What the programs share that have the ten tables: both blocks built, or read from a file, and checked.
#![tactic(auto)]

ghost use Rattle.std.specs.Prelude.{◌≡◌};
ghost use Rattle.refusal.specs.Refusals.{code};
ghost use Rattle.table_calls.specs.Calls.{block_left};
ghost use Rattle.table_io.specs.Both.{BuildCall};

use refusal::Refusal;

pub mod inner;

// Both blocks built, the move tables first.
#[tactic(auto, using(crate::proofs::Results::over_true, crate::proofs::Results::refused))]
pub fn build(moves: &mut [u16], prunes: &mut [u8]) -> Result<(), Refusal>
    ensures moves_after { moves.new ≡ block_left moves.old }
    ensures build_call { BuildCall moves.old prunes.old prunes.new (code result) }
{
    table_calls::get_move_tables(moves)?;
    prune_calls::get_prune_tables(moves, prunes)
}
