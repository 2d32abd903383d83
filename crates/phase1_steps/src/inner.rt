// The steps of phase 1 below its search: positions, cuts and turns, and phase 2 at an end. The cube is lent as 40 bytes: a struct would be copied on each call.
ghost use Rattle.std.specs.Prelude.{◌≡◌, true, ◌<◌, length};
ghost use Rattle.cubie.specs.Cube.{refusal_of};
ghost use Rattle.cubie.specs.Solvable.{solvable};
ghost use Rattle.phase2_steps.specs.Rules.{Below, phase1, ends_of, cut_of, cut_at_once, go_of, below_of};
ghost use Rattle.phase1_steps.specs.First.{turns1, fars1, of1, coords1, turned1};

use crate::Phase1State;
use columns::NO_MOVE;
use cubie::CubieCube;
use move_table::{E_COMBO_AT, EO_AT};
use numbering::inner::e_combo_to_index;
use numbering::{Co, ECombo, Eo};
use orientation::inner::{co_to_index, eo_to_index};
use pruning_table::EO_E_AT;

// The position of a cube, with no move made yet.
pub fn phase1_state(cube: CubieCube) -> Phase1State
    requires { (refusal_of cube ≡ 0) × (solvable cube ≡ true) }
    ensures { (of1 result ≡ coords1 cube) × ((result.last ≡ 18) × Below phase1 (of1 result)) }
{
    Phase1State {
        co: co_to_index(cube.co),
        eo: eo_to_index(cube.eo),
        e: e_combo_to_index(cube.ep),
        last: NO_MOVE,
    }
}

// Whether the three coordinates are 0.
pub fn is_solved(x: Phase1State) -> bool
    ensures { result ≡ ends_of (of1 x) }
{
    x.co.0 == 0 && x.eo.0 == 0 && x.e.0 == 0
}

// Whether the larger of the two pruning entries is above the depth still to go.
pub fn prune(prunes: &[u8], x: Phase1State, d: usize) -> bool
    requires prunes_len { length prunes.now ≡ 4031685 }
    requires below { Below phase1 (of1 x) }
    ensures { result ≡ cut_of phase1 (fars1 prunes.now) (of1 x) d }
{
    let e = x.e.0 as usize;
    let p = prunes[(x.co.0 as usize) * 495 + e] as usize;
    let q = prunes[EO_E_AT + ((x.eo.0 as usize) * 495 + e)] as usize;
    // both entries are read before the one test: two misses of the cache at once, and one branch
    d < p.max(q)
}

// Whether an entry into x is paid for and cut, so that no more comes of it: a call is spared.
pub fn cut_at_once(prunes: &[u8], x: Phase1State, d: usize, left: u32) -> bool
    requires prunes_len { length prunes.now ≡ 4031685 }
    requires below { Below phase1 (of1 x) }
    ensures { result ≡ cut_at_once phase1 (fars1 prunes.now) (of1 x) d left }
{
    left != 0 && d != 0 && prune(prunes, x, d)
}

// The position x, with m as the move that led to it.
pub fn after(x: Phase1State, m: u8) -> Phase1State
    ensures { (of1 result ≡ of1 x) × (result.last ≡ m) }
{
    Phase1State { last: m, ..x }
}

// The position after m, the move of column j, by the three move tables.
pub fn next(moves: &[u16], x: Phase1State, j: usize, m: u8) -> Option<Phase1State>
    requires moves_len { length moves.now ≡ 891780 }
    requires below { Below phase1 (of1 x) }
    requires j_bound { j < 18 }
    ensures { result ≡ turned1 (below_of phase1 (go_of phase1 (turns1 moves.now) (of1 x) j)) (go_of phase1 (turns1 moves.now) (of1 x) j) m }
{
    let a = moves[(x.co.0 as usize) * 18 + j];
    let b = moves[EO_AT + ((x.eo.0 as usize) * 18 + j)];
    let c = moves[E_COMBO_AT + ((x.e.0 as usize) * 18 + j)];
    if a < 2187 && b < 2048 && c < 495 {
        Some(Phase1State {
            co: Co(a),
            eo: Eo(b),
            e: ECombo(c),
            last: m,
        })
    } else {
        None
    }
}
