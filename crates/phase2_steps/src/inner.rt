// The steps below the search of phase 2.
ghost use Rattle.std.specs.Prelude.{◌≡◌, false, ◌+◌, ◌*◌, ◌<◌, length, max};
ghost use Rattle.phase2_steps.specs.Rules.{Below, phase2, at, ends_of, cut_of, cut_at_once, go_of, below_of};
ghost use Rattle.phase2_steps.specs.Second.{turns2, fars2, of2, coords2, turned2};

use crate::Phase2State;
use cubie::CubieCube;
use move_table::{CP_AT, E_EP_AT, UD_EP_AT};
use numbering::{Cp, EEp, UdEp};
use permutation::inner::{cp_to_index, e_ep_to_index, ud_ep_to_index};
use pruning_table::{CP_E_AT, EP_E_AT};

// The position of a cube, after the move `last`.
pub fn phase2_state(cube: CubieCube, last: u8) -> Phase2State
    ensures { (of2 result ≡ coords2 cube) × ((result.last ≡ last) × Below phase2 (of2 result)) }
{
    Phase2State {
        cp: cp_to_index(cube.cp),
        ep: ud_ep_to_index(cube.ep),
        e: e_ep_to_index(cube.ep),
        last,
    }
}

// Whether the three coordinates are 0.
pub fn is_solved(x: Phase2State) -> bool
    ensures { result ≡ ends_of (of2 x) }
{
    x.cp.0 == 0 && x.ep.0 == 0 && x.e.0 == 0
}

// Whether the larger of the two pruning entries is above the depth still to go.
fn prune(prunes: &[u8], x: Phase2State, d: usize) -> bool
    requires prunes_len { length prunes.now ≡ 4031685 }
    requires below { Below phase2 (of2 x) }
    ensures { result ≡ cut_of phase2 (fars2 prunes.now) (of2 x) d }
{
    let e = x.e.0 as usize;
    let p = prunes[CP_E_AT + ((x.cp.0 as usize) * 24 + e)] as usize;
    let q = prunes[EP_E_AT + ((x.ep.0 as usize) * 24 + e)] as usize;
    // both entries are read before the one test: two misses of the cache at once, and one branch
    d < p.max(q)
}

// Whether an entry into x is paid for and cut, so that no more comes of it: a call is spared.
pub fn cut_at_once(prunes: &[u8], x: Phase2State, d: usize, left: u32) -> bool
    requires prunes_len { length prunes.now ≡ 4031685 }
    requires below { Below phase2 (of2 x) }
    ensures { result ≡ cut_at_once phase2 (fars2 prunes.now) (of2 x) d left }
{
    left != 0 && d != 0 && prune(prunes, x, d)
}

// The position x, with m as the move that led to it.
pub fn after(x: Phase2State, m: u8) -> Phase2State
    ensures { (of2 result ≡ of2 x) × (result.last ≡ m) }
{
    Phase2State { last: m, ..x }
}

// The position after m, the move of column j, by the three move tables.
pub fn next(moves: &[u16], x: Phase2State, j: usize, m: u8) -> Option<Phase2State>
    requires moves_len { length moves.now ≡ 891780 }
    requires below { Below phase2 (of2 x) }
    requires j_bound { j < 10 }
    ensures { result ≡ turned2 (below_of phase2 (go_of phase2 (turns2 moves.now) (of2 x) j)) (go_of phase2 (turns2 moves.now) (of2 x) j) m }
{
    let a = moves[CP_AT + ((x.cp.0 as usize) * 10 + j)];
    let b = moves[UD_EP_AT + ((x.ep.0 as usize) * 10 + j)];
    let c = moves[E_EP_AT + ((x.e.0 as usize) * 10 + j)];
    if a < 40320 && b < 40320 && c < 24 {
        Some(Phase2State {
            cp: Cp(a),
            ep: UdEp(b),
            e: EEp(c),
            last: m,
        })
    } else {
        None
    }
}
