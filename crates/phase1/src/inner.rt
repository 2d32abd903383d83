// The search of phase 1, over blocks whose lengths were tested. The cube is lent as 40 bytes: a struct would be copied on each call.
ghost use Rattle.std.specs.Prelude.{◌≡◌, false, ◌+◌, ◌≤◌, take};
ghost use Rattle.base.specs.Lists.{Under};
ghost use Rattle.base.specs.Search.{enter, walk_over};
ghost use Rattle.base.specs.Sets.{columns_of};
ghost use Rattle.cubie.specs.Cube.{refusal_of, cube_of};
ghost use Rattle.phase2_steps.specs.Rules.{Below, phase1, at, cut_at_once};
ghost use Rattle.phase2_steps.specs.Paths.{Holds};
ghost use Rattle.phase1_steps.specs.First.{fars1, of1, coords, search1, Gives1};

use columns::NO_MOVE;
use columns::inner::{first_column, other_columns, phase1_move, phase1_open};
use numbering::{Co, ECombo, Eo};
use phase1_ends::inner::end_phase1;
use phase1_steps::Phase1State;
use phase1_steps::inner::{after, cut_at_once, is_solved, next, prune};
use phase2_steps::{HIGH, REFUSED, SPENT};
use pruning_table::Tables;

// An entry into x, with d moves to go. The n moves so far stand in `one`, and `two` is free for phase 2. The answer is a word as
// phase 2's.
#[cycle(solve_phase1_step_phase1_walk_phase1)]
pub fn solve_phase1(
    tables: &Tables,
    cube: &[u8; 40],
    limit: usize,
    x: Phase1State,
    n: usize,
    one: &mut [u8; 31],
    two: &mut [u8; 31],
    d: usize,
    left: u32,
) -> u64
    requires below { Below phase1 (of1 x) }
    requires d_bound { (n + d ≤ limit) × (limit ≤ 31) × (refusal_of (cube_of cube.now) ≡ 0) }
    requires holds { Holds one.old n × Holds two.old 0 }
    ensures { Gives1 (enter (search1 tables.now.moves.now tables.now.prunes.now (cube_of cube.now) limit) d (at (of1 x) x.last (take n one.old)) left) (n + d) result one.old two.old one.new two.new }
{
    if left == 0 {
        return SPENT * HIGH;
    }
    let rest = left - 1;
    if d == 0 {
        if is_solved(x) {
            return end_phase1(tables, cube, limit, x.last, n, one, two, rest);
        }
        return rest as u64;
    }
    if prune(tables.prunes, x, d) {
        return rest as u64;
    }
    step_phase1(tables, cube, limit, x, n, one, two, d, left)
}

// The same, of an entry that isn't cut at once: that was asked. One with no moves to go is solve_phase1's.
#[cycle(solve_phase1_step_phase1_walk_phase1)]
fn step_phase1(
    tables: &Tables,
    cube: &[u8; 40],
    limit: usize,
    x: Phase1State,
    n: usize,
    one: &mut [u8; 31],
    two: &mut [u8; 31],
    d: usize,
    left: u32,
) -> u64
    requires below { Below phase1 (of1 x) }
    requires d_bound { (n + d ≤ limit) × (limit ≤ 31) × (refusal_of (cube_of cube.now) ≡ 0) }
    requires holds { Holds one.old n × Holds two.old 0 }
    requires left_value { cut_at_once phase1 (fars1 tables.now.prunes.now) (of1 x) d left ≡ false }
    ensures { Gives1 (enter (search1 tables.now.moves.now tables.now.prunes.now (cube_of cube.now) limit) d (at (of1 x) x.last (take n one.old)) left) (n + d) result one.old two.old one.new two.new }
{
    if left == 0 {
        return SPENT * HIGH;
    }
    if d == 0 {
        return solve_phase1(tables, cube, limit, x, n, one, two, d, left);
    }
    let co = x.co;
    let eo = x.eo;
    let e = x.e;
    let k = d - 1;
    let on = phase1_open(x.last);
    let s = left - 1;
    walk_phase1(tables, cube, limit, co, eo, e, n, one, two, k, on, s)
}

// The moves of the columns in `set` at the position of the three coordinates; d moves to go after one of them. (The coordinates stand one by one:
// a struct would be packed again for each column.)
#[cycle(solve_phase1_step_phase1_walk_phase1)]
fn walk_phase1(
    tables: &Tables,
    cube: &[u8; 40],
    limit: usize,
    co: Co,
    eo: Eo,
    e: ECombo,
    n: usize,
    one: &mut [u8; 31],
    two: &mut [u8; 31],
    d: usize,
    set: u32,
    left: u32,
) -> u64
    requires below { Below phase1 (coords co eo e) × Under 18 (columns_of set) }
    requires d_bound { (n + d + 1 ≤ limit) × (limit ≤ 31) × (refusal_of (cube_of cube.now) ≡ 0) }
    requires holds { Holds one.old n × Holds two.old 0 }
    ensures { Gives1 (walk_over (search1 tables.now.moves.now tables.now.prunes.now (cube_of cube.now) limit) d (at (coords co eo e) 18 (take n one.old)) (columns_of set) left) (n + d + 1) result one.old two.old one.new two.new }
{
    if set == 0 {
        return left as u64;
    }
    let j = first_column(set);
    let on = other_columns(set);
    let x = Phase1State {
        co,
        eo,
        e,
        last: NO_MOVE,
    };
    match next(tables.moves, x, j, NO_MOVE) {
        None => return REFUSED * HIGH + (left as u64),
        Some(y) => {
            if cut_at_once(tables.prunes, y, d, left) {
                let s = left - 1;
                return walk_phase1(tables, cube, limit, co, eo, e, n, one, two, d, on, s);
            }
            let m = phase1_move(j);
            let z = after(y, m);
            one[n] = m;
            let r = step_phase1(tables, cube, limit, z, n + 1, one, two, d, left);
            if HIGH <= r {
                return r;
            }
            one[n] = 0;
            let s = r as u32;
            return walk_phase1(tables, cube, limit, co, eo, e, n, one, two, d, on, s);
        }
    }
}
