// Where phase 1 ends, and phase 2 begins.
ghost use Rattle.std.specs.Prelude.{◌≡◌, ◌≤◌, ◌<◌, take};
ghost use Rattle.cubie.specs.Cube.{refusal_of, cube_of, apply_moves};
ghost use Rattle.phase2_steps.specs.Rules.{Below, phase2};
ghost use Rattle.phase2_steps.specs.Paths.{Holds};
ghost use Rattle.phase2_steps.specs.Second.{turns2, fars2, of2, coords2};
ghost use Rattle.phase1_steps.specs.First.{full_of, finish1, Gives1};

use cube_bytes::inner::cube_of;
use cubie::inner::apply_moves;
use phase2::inner::solve_phase2;
use phase2_steps::inner::phase2_state;
use phase2_steps::{HIGH, NOTHING, Phase2State};
use pruning_table::Tables;

// The cube turned by the first n moves of the path, as a position of phase 2.
pub fn start_phase2(cube: &[u8; 40], one: &[u8; 31], n: usize, last: u8) -> Phase2State
    requires n_bound { (n ≤ 31) × (refusal_of (cube_of cube.now) ≡ 0) }
    requires holds { Holds one.now n }
    ensures { (of2 result ≡ coords2 (apply_moves (cube_of cube.now) (take n one.now))) × ((result.last ≡ last) × Below phase2 (of2 result)) }
{
    // The whole as a slice first: a part is taken of a slice, not of an array behind a reference.
    let path = &one[..];
    phase2_state(apply_moves(cube_of(cube), &path[..n]), last)
}

// Whether n moves make a phase-1 list as long as the limit, and are not none.
pub fn full(limit: usize, n: usize) -> bool
    ensures { result ≡ full_of limit n }
{
    n != 0 && limit <= n
}

// An end of phase 1, with the n moves of `one`: phase 2, length after length.
pub fn end_phase1(
    tables: &Tables,
    cube: &[u8; 40],
    limit: usize,
    last: u8,
    n: usize,
    one: &[u8; 31],
    two: &mut [u8; 31],
    left: u32,
) -> u64
    requires n_le_limit { (n ≤ limit) × (limit ≤ 31) × (refusal_of (cube_of cube.now) ≡ 0) }
    requires holds { Holds one.now n }
    requires holds_2 { Holds two.old 0 }
    ensures { Gives1 (finish1 (turns2 tables.now.moves.now) (fars2 tables.now.prunes.now) (cube_of cube.now) limit last (take n one.now) left) n result one.now two.old one.now two.new }
{
    if full(limit, n) {
        return NOTHING * HIGH + (left as u64);
    }
    let x = start_phase2(cube, one, n, last);
    let top = limit - n;
    let mut rest = left;
    for d in 0..top {
        let r = solve_phase2(tables, x, 0, two, d, rest);
        if HIGH <= r {
            return r;
        }
        rest = r as u32;
    }
    rest as u64
}
