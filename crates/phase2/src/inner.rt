// The search of phase 2, over blocks whose lengths were tested. What it hands back is one word: a struct would go through memory.
ghost use Rattle.std.specs.Prelude.{◌≡◌, false, ◌+◌, ◌*◌, ◌≤◌, ◌<◌, take};
ghost use Rattle.base.specs.Search.{enter};
ghost use Rattle.phase2_steps.specs.Rules.{Below, phase2, at, cut_at_once};
ghost use Rattle.phase2_steps.specs.Paths.{Holds};
ghost use Rattle.phase2_steps.specs.Second.{turns2, fars2, of2, rules2, Gives2};

use columns::NO_MOVE;
use columns::inner::{first_column, other_columns, phase2_move, phase2_open};
use phase2_steps::inner::{after, cut_at_once, is_solved, next};
use phase2_steps::{HIGH, Phase2State, REFUSED, SOLVED, SPENT};
use pruning_table::Tables;

// An entry into x, with d moves to go, that isn't cut at once. The n moves so far stand in `path`. It calls itself from its loop over the moves.
// The answer is a word of phase2_steps.
fn enter_phase2(
    tables: &Tables,
    x: Phase2State,
    n: usize,
    path: &mut [u8; 31],
    d: usize,
    left: u32,
) -> u64
    requires below { Below phase2 (of2 x) }
    requires d_bound { n + d ≤ 31 }
    requires holds { Holds path.old n }
    requires left_value { cut_at_once phase2 (fars2 tables.now.prunes.now) (of2 x) d left ≡ false }
    ensures { Gives2 (enter (rules2 (turns2 tables.now.moves.now) (fars2 tables.now.prunes.now)) d (at (of2 x) x.last (take n path.old)) left) result path.old path.new }
{
    if left == 0 {
        return SPENT * HIGH;
    }
    let mut rest = left - 1;
    if d == 0 {
        if is_solved(x) {
            return (SOLVED + (n as u64)) * HIGH + (rest as u64);
        }
        return rest as u64;
    }
    let mut set = phase2_open(x.last);
    while set != 0 {
        let j = first_column(set);
        set = other_columns(set);
        match next(tables.moves, x, j, NO_MOVE) {
            None => return REFUSED * HIGH + (rest as u64),
            Some(y) => {
                if cut_at_once(tables.prunes, y, d - 1, rest) {
                    rest -= 1;
                } else {
                    let m = phase2_move(j);
                    path[n] = m;
                    let r = enter_phase2(tables, after(y, m), n + 1, path, d - 1, rest);
                    if HIGH <= r {
                        return r;
                    }
                    path[n] = 0;
                    rest = r as u32;
                }
            }
        }
    }
    rest as u64
}

// An entry into x, with d moves to go. The n moves so far stand in `path`. The answer is such a word too.
pub fn solve_phase2(
    tables: &Tables,
    x: Phase2State,
    n: usize,
    path: &mut [u8; 31],
    d: usize,
    left: u32,
) -> u64
    requires below { Below phase2 (of2 x) }
    requires d_bound { n + d ≤ 31 }
    requires holds { Holds path.old n }
    ensures { Gives2 (enter (rules2 (turns2 tables.now.moves.now) (fars2 tables.now.prunes.now)) d (at (of2 x) x.last (take n path.old)) left) result path.old path.new }
{
    if cut_at_once(tables.prunes, x, d, left) {
        return (left - 1) as u64;
    }
    enter_phase2(tables, x, n, path, d, left)
}
