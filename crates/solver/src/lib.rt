// The two-phase search: `Solver` of kewb's src/two_phase/solver.rs, with no timeout and fresh for each call.
#![tactic(auto)]

ghost use Rattle.std.specs.Prelude.{◌≡◌, ◌++◌, IfOk};
ghost use Rattle.base.specs.Lists.{Under};
ghost use Rattle.cubie.specs.Cube.{refusal_of};
ghost use Rattle.search.specs.Solve.{HasMoves, Searchable, solves, checked, checked_search, solve_of};

use cubie::CubieCube;
use cubie::inner::{apply_moves, check_solvable, is_solved};
use move_table::MOVES_LEN;
use pruning_table::{PRUNES_LEN, Tables};
use refusal::Refusal;
use search::inner::{no_lists, search};
use search::{Found, Solution};

// What is refused before the search: 9, then 10, then 4, 5 and 6.
fn check_search(cube: CubieCube, limit: u8, moves: &[u16], prunes: &[u8]) -> Result<(), Refusal>
    ensures value { result ≡ checked_search cube limit moves.now prunes.now }
    ensures good { IfOk result (λ _. Searchable cube limit moves.now prunes.now) }
{
    if 31 < limit {
        return Err(Refusal::Limit);
    }
    if moves.len() != MOVES_LEN || prunes.len() != PRUNES_LEN {
        return Err(Refusal::Length);
    }
    check_solvable(cube)
}

// Whether the two lists, one after the other, solve the cube.
fn solves_it(cube: CubieCube, one: &[u8], two: &[u8]) -> bool
    requires { (refusal_of cube ≡ 0) × Under 18 one.now × Under 18 two.now }
    ensures { result ≡ solves cube (one.now ++ two.now) }
{
    is_solved(apply_moves(apply_moves(cube, one), two))
}

// The last check: a list that doesn't solve the cube is not given out.
fn last_check(cube: CubieCube, s: Solution) -> Solution
    requires cube_value { refusal_of cube ≡ 0 }
    requires has_moves { HasMoves s }
    ensures value { result ≡ checked cube s }
    ensures has_moves_2 { HasMoves result }
{
    match s.found {
        Found::Solved => {
            if solves_it(cube, &s.phase1[..s.n1], &s.phase2[..s.n2]) {
                s
            } else {
                no_lists(Found::Refused(Refusal::LastCheck), s.count)
            }
        }
        _ => s,
    }
}

// Turns that solve the cube, fewer than the limit, found within the budget by the tables of the two blocks.
pub fn solve(cube: CubieCube, limit: u8, budget: u32, moves: &[u16], prunes: &[u8]) -> Solution
    ensures value { result ≡ solve_of cube limit budget moves.now prunes.now }
    ensures has_moves { HasMoves result }
{
    match check_search(cube, limit, moves, prunes) {
        Err(r) => no_lists(Found::Refused(r), 0),
        Ok(()) => {
            let tables = Tables { moves, prunes };
            last_check(cube, search(cube, limit as usize, budget, &tables))
        }
    }
}
