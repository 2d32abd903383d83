// The 18 moves by their numbers, as kewb's src/cube/moves.rs declares them: U U2 U3 D D2 D3 R R2 R3 L L2 L3 F F2 F3 B B2 B3.
#![tactic(auto)]

ghost use Rattle.std.specs.Prelude.{◌≡◌};
ghost use Rattle.moves.specs.Answers.{of_two, inverse_move_answer};
ghost use Rattle.moves.specs.Moves.{is_inverse, is_same_layer, is_available};

use inner::{check_both, check_move};
use refusal::Refusal;

pub mod inner;

// Whether the two turn opposite layers, the first of them U, R or F.
pub fn is_inverse(m: u8, other: u8) -> Result<bool, Refusal>
    ensures { result ≡ of_two is_inverse m other }
{
    check_both(m, other)?;
    Ok(inner::is_inverse(m, other))
}

pub fn is_same_layer(m: u8, other: u8) -> Result<bool, Refusal>
    ensures { result ≡ of_two is_same_layer m other }
{
    check_both(m, other)?;
    Ok(inner::is_same_layer(m, other))
}

// Whether `current` may follow `prev`: not on the same layer, and not U after D, R after L, F after B.
pub fn is_move_available(prev: u8, current: u8) -> Result<bool, Refusal>
    ensures { result ≡ of_two is_available prev current }
{
    check_both(prev, current)?;
    Ok(inner::is_move_available(prev, current))
}

// The move that takes `m` back.
pub fn get_inverse(m: u8) -> Result<u8, Refusal>
    ensures { result ≡ inverse_move_answer m }
{
    check_move(m)?;
    Ok(inner::get_inverse(m))
}
