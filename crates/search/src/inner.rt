// The loop over the lengths of phase 1, and what is read off a search that ended.
ghost use Rattle.std.specs.Prelude.{◌≡◌, true, ◌≤◌, ◌%◌};
ghost use Rattle.cubie.specs.Cube.{refusal_of, cube_of};
ghost use Rattle.cubie.specs.Solvable.{solvable};
ghost use Rattle.phase2_steps.specs.Second.{turns2, fars2};
ghost use Rattle.phase1_steps.specs.First.{turns1, fars1, coords1, table_solve};
ghost use Rattle.search.specs.Solve.{no_lists, answer_of, HasMoves, ReadOff};

use crate::{Found, Solution};
use cube_bytes::inner::put_cube;
use cubie::CubieCube;
use phase1::inner::solve_phase1;
use phase1_steps::inner::phase1_state;
use phase2_steps::{HIGH, NOTHING, REFUSED, SOLVED, SPENT};
use pruning_table::Tables;
use refusal::Refusal;

// An answer with empty lists.
pub fn no_lists(found: Found, count: u32) -> Solution
    ensures { result ≡ no_lists found count }
{
    Solution {
        found,
        count,
        n1: 0,
        phase1: [0; 31],
        n2: 0,
        phase2: [0; 31],
    }
}

// The answer of a search that ended, by its word, the length d of its first list and the two paths as it left them.
fn read_word(word: u64, budget: u32, d: usize, one: [u8; 31], two: [u8; 31]) -> Solution
    requires { (4294967296 ≤ word) × (word % 4294967296 ≤ budget) × (d ≤ 31) }
    ensures { ReadOff budget word d one two result }
{
    let out = word / HIGH;
    let count = budget - ((word % HIGH) as u32);
    match out {
        NOTHING => no_lists(Found::Nothing, count),
        SPENT => no_lists(Found::Spent, count),
        REFUSED => no_lists(Found::Refused(Refusal::Entry), count),
        _ => Solution {
            found: Found::Solved,
            count,
            n1: d,
            phase1: one,
            n2: (out - SOLVED) as usize,
            phase2: two,
        },
    }
}

// The 40 bytes of the cube: the search lends them on each call, where a struct would be copied.
fn bytes_of(cube: CubieCube) -> [u8; 40]
    ensures { cube_of result ≡ cube }
{
    let mut bytes = [0u8; 40];
    put_cube(cube, &mut bytes);
    bytes
}

// The search: phase-1 lengths from 0 to the limit, with at most `budget` entries into positions.
pub fn search(cube: CubieCube, limit: usize, budget: u32, tables: &Tables) -> Solution
    requires { (refusal_of cube ≡ 0) × (solvable cube ≡ true) × (limit ≤ 31) }
    ensures value { result ≡ answer_of budget (table_solve (turns1 tables.now.moves.now) (fars1 tables.now.prunes.now) (turns2 tables.now.moves.now) (fars2 tables.now.prunes.now) cube limit (coords1 cube) budget) }
    ensures has_moves { HasMoves result }
{
    let bytes = bytes_of(cube);
    let x = phase1_state(cube);
    let mut one = [0; 31];
    let mut two = [0; 31];
    let mut rest = budget;
    for d in 0..limit + 1 {
        let r = solve_phase1(tables, &bytes, limit, x, 0, &mut one, &mut two, d, rest);
        if HIGH <= r {
            return read_word(r, budget, d, one, two);
        }
        rest = r as u32;
    }
    no_lists(Found::Nothing, budget - rest)
}
