// What other crates call without the tests of the public functions, and the test of a move's number.
ghost use Rattle.std.specs.Prelude.{◌≡◌, ◌<◌, ◌/◌, IfOk};
ghost use Rattle.base.specs.Lists.{Under};
ghost use Rattle.refusal.specs.Refusals.{checked};
ghost use Rattle.moves.specs.Answers.{lowest_of};
ghost use Rattle.moves.specs.Moves.{move_refusal, moves_refusal, is_inverse, is_same_layer, inverse_move, is_available};

use pieces::inner::in_range;
use refusal::Refusal;

// Refuses a number that is no move's.
pub fn check_move(m: u8) -> Result<(), Refusal>
    ensures value { result ≡ checked (move_refusal m) }
    ensures is_move { IfOk result (λ _. m < 18) }
{
    if m < 18 { Ok(()) } else { Err(Refusal::Move) }
}

// Refuses two numbers if either is no move's.
pub fn check_both(m: u8, other: u8) -> Result<(), Refusal>
    ensures { result ≡ checked (lowest_of (move_refusal m) (move_refusal other)) }
{
    check_move(m)?;
    check_move(other)
}

// Refuses a list if a number of it is no move's.
pub fn check_list(moves: &[u8]) -> Result<(), Refusal>
    ensures value { result ≡ checked (moves_refusal moves.now) }
    ensures are_moves { IfOk result (λ _. Under 18 moves.now) }
{
    if in_range(moves, 18) {
        Ok(())
    } else {
        Err(Refusal::Move)
    }
}

pub fn is_inverse(m: u8, other: u8) -> bool
    ensures { result ≡ is_inverse m other }
{
    match m / 3 {
        0 => other / 3 == 1,
        2 => other / 3 == 3,
        4 => other / 3 == 5,
        _ => false,
    }
}

pub fn is_same_layer(m: u8, other: u8) -> bool
    ensures { result ≡ is_same_layer m other }
{
    m / 3 == other / 3
}

pub fn get_inverse(m: u8) -> u8
    requires { m < 18 }
    ensures { result ≡ inverse_move m }
{
    m / 3 * 3 + (2 - m % 3)
}

// As the Rust has it. A first argument of 18 stands for no move: everything is available after it.
pub fn is_move_available(prev: u8, current: u8) -> bool
    ensures { result ≡ is_available prev current }
{
    current != prev && !is_inverse(current, prev) && !is_same_layer(current, prev)
}
