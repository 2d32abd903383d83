// The search on lent memory, for the C interface. A refusal may write nothing, and yet has a count: so all numbers come back in one.
#![tactic(auto)]

ghost use Rattle.std.specs.Prelude.{◌≡◌};
ghost use Rattle.search.specs.Solve.{HasMoves};
ghost use Rattle.search_calls.specs.Calls.{packed, solve_number, first_left, second_left};

use cube_bytes::inner::cube_of;
use search::{Found, Solution};

// What is returned of an answer: the number, the kind, the lengths and the count.
fn pack(s: Solution) -> u64
    requires { HasMoves s }
    ensures { result ≡ packed s }
{
    let lengths = 65536 * (s.n1 as u64) + 16777216 * (s.n2 as u64);
    let rest = lengths + 4294967296 * (s.count as u64);
    match s.found {
        Found::Solved => rest,
        Found::Nothing => 256 + rest,
        Found::Spent => 512 + rest,
        Found::Refused(r) => u64::from(u8::from(r)) + rest,
    }
}

// Turns that solve the cube of 40 bytes, in two rooms of 31 bytes each. Returned is the paper's number in the low byte; then 0 solved, 1 none
// or 2 spent; then the lengths of the two lists, a byte each; and above them, in 32 bits, the entries made.
pub fn solve(
    cube: &[u8],
    limit: u8,
    budget: u32,
    moves: &[u16],
    prunes: &[u8],
    one: &mut [u8],
    two: &mut [u8],
) -> u64
    ensures value { result ≡ solve_number cube.now limit budget moves.now prunes.now one.old two.old }
    ensures one_after { one.new ≡ first_left cube.now limit budget moves.now prunes.now one.old two.old }
    ensures two_after { two.new ≡ second_left cube.now limit budget moves.now prunes.now one.old two.old }
{
    if 31 < limit {
        return 9;
    }
    if cube.len() != 40 || one.len() != 31 || two.len() != 31 {
        return 10;
    }
    let s = solver::solve(cube_of(cube), limit, budget, moves, prunes);
    if s.found == Found::Solved {
        one.copy_from_slice(&s.phase1);
        two.copy_from_slice(&s.phase2);
    }
    pack(s)
}
