// What other crates call without the tests of the public functions. A cube is in range where its refusal is 0.
ghost use Rattle.std.specs.Prelude.{◌≡◌, true, ◌<◌, get_or, IfOk};
ghost use Rattle.base.specs.Lists.{Under};
ghost use Rattle.refusal.specs.Refusals.{checked};
ghost use Rattle.cubie.specs.Answers.{solvable_refusal};
ghost use Rattle.cubie.specs.Cube.{refusal_of, product, solved_cube, quarter_turns, move_of, turn, apply_moves, is_home};
ghost use Rattle.cubie.specs.Solvable.{corner_twist, edge_twist, corner_perm, edge_perm, solvable};

use crate::quarters::QUARTERS;
use crate::{CubieCube, SOLVED_CUBIE_CUBE};
use parts::inner::{check_range, none_twice};
use refusal::Refusal;
use turning::inner::{count_swaps, count_turns, permute_row, twist_row};

// Refuses a cube that isn't in range: 4, 5 or 6, the lowest.
pub fn check(c: CubieCube) -> Result<(), Refusal>
    ensures value { result ≡ checked (refusal_of c) }
    ensures in_range { IfOk result (λ _. refusal_of c ≡ 0) }
{
    check_range(c.cp, c.co, c.ep, c.eo)
}

// Refuses a cube that isn't in range, and one that isn't solvable with 6.
pub fn check_solvable(c: CubieCube) -> Result<(), Refusal>
    ensures value { result ≡ checked (solvable_refusal c) }
    ensures good { IfOk result (λ _. (refusal_of c ≡ 0) × (solvable c ≡ true)) }
{
    check(c)?;
    if is_solvable(c) {
        Ok(())
    } else {
        Err(Refusal::Range)
    }
}

// The product, as `Mul` has it.
pub fn mul(a: CubieCube, b: CubieCube) -> CubieCube
    requires { (refusal_of a ≡ 0) × (refusal_of b ≡ 0) }
    ensures { result ≡ product a b }
{
    CubieCube {
        cp: permute_row(&a.cp, &b.cp),
        co: twist_row(&a.co, &b.cp, &b.co, 3),
        ep: permute_row(&a.ep, &b.ep),
        eo: twist_row(&a.eo, &b.ep, &b.eo, 2),
    }
}

// The quarter turn of a layer, U D R L F B being 0 to 5.
fn quarter_turn(layer: u8) -> CubieCube
    requires { layer < 6 }
    ensures { result ≡ get_or quarter_turns layer solved_cube }
{
    QUARTERS[layer as usize]
}

// The cube that a move makes of the solved one: its quarter turn taken one, two or three times.
pub fn move_state(m: u8) -> CubieCube
    requires { m < 18 }
    ensures { result ≡ move_of m }
{
    let once = quarter_turn(m / 3);
    match m % 3 {
        0 => once,
        1 => mul(once, once),
        _ => mul(mul(once, once), once),
    }
}

pub fn apply_move(c: CubieCube, m: u8) -> CubieCube
    requires { (refusal_of c ≡ 0) × (m < 18) }
    ensures { result ≡ turn c m }
{
    mul(c, move_state(m))
}

pub fn apply_moves(c: CubieCube, moves: &[u8]) -> CubieCube
    requires { (refusal_of c ≡ 0) × Under 18 moves.now }
    ensures { result ≡ apply_moves c moves.now }
{
    let mut state = c;
    for m in moves {
        state = apply_move(state, *m);
    }
    state
}

pub fn is_solved(c: CubieCube) -> bool
    ensures { result ≡ is_home c }
{
    c == SOLVED_CUBIE_CUBE
}

pub fn count_corner_twist(c: CubieCube) -> u8
    requires { refusal_of c ≡ 0 }
    ensures { result ≡ corner_twist c }
{
    count_turns(&c.co, 3)
}

pub fn count_edge_twist(c: CubieCube) -> u8
    requires { refusal_of c ≡ 0 }
    ensures { result ≡ edge_twist c }
{
    count_turns(&c.eo, 2)
}

pub fn count_corner_perm(c: CubieCube) -> u8
    ensures { result ≡ corner_perm c }
{
    let mut cp = c.cp;
    count_swaps(&mut cp)
}

pub fn count_edge_perm(c: CubieCube) -> u8
    ensures { result ≡ edge_perm c }
{
    let mut ep = c.ep;
    count_swaps(&mut ep)
}

#[tactic(auto, unfolding(crate::specs::Solvable::solvable))]
pub fn is_solvable(c: CubieCube) -> bool
    requires { refusal_of c ≡ 0 }
    ensures { result ≡ solvable c }
{
    none_twice(c.cp, c.ep)
        && count_corner_perm(c) % 2 == count_edge_perm(c) % 2
        && count_corner_twist(c) % 3 == 0
        && count_edge_twist(c) % 2 == 0
}
