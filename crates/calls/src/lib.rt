// Moves on lent bytes: each function refuses or writes into lent bytes, which a refusal leaves as they were. A lent slice of another length
// than is said is refused with 10, before all else.
#![tactic(auto)]

ghost use Rattle.calls.specs.Calls.{Leaves, inverse_move_call, of_two_call};
ghost use Rattle.moves.specs.Moves.{is_inverse, is_same_layer, is_available};
ghost use Rattle.refusal.specs.Refusals.{code};

use inner::check_len;
use refusal::Refusal;

pub mod inner;

// The move that takes `m` back: one byte.
pub fn get_inverse(m: u8, out: &mut [u8]) -> Result<(), Refusal>
    ensures { Leaves (inverse_move_call m out.old) (code result) out.new }
{
    check_len(out, 1)?;
    out[0] = moves::get_inverse(m)?;
    Ok(())
}

pub fn is_inverse(m: u8, other: u8, out: &mut [u8]) -> Result<(), Refusal>
    ensures { Leaves (of_two_call is_inverse m other out.old) (code result) out.new }
{
    check_len(out, 1)?;
    out[0] = u8::from(moves::is_inverse(m, other)?);
    Ok(())
}

pub fn is_same_layer(m: u8, other: u8, out: &mut [u8]) -> Result<(), Refusal>
    ensures { Leaves (of_two_call is_same_layer m other out.old) (code result) out.new }
{
    check_len(out, 1)?;
    out[0] = u8::from(moves::is_same_layer(m, other)?);
    Ok(())
}

// Whether `current` may follow `prev`: one byte, 1 or 0.
pub fn is_move_available(prev: u8, current: u8, out: &mut [u8]) -> Result<(), Refusal>
    ensures { Leaves (of_two_call is_available prev current out.old) (code result) out.new }
{
    check_len(out, 1)?;
    out[0] = u8::from(moves::is_move_available(prev, current)?);
    Ok(())
}
