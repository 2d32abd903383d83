// Cubes in lent memory: product, moves, tests and counts. A refusal leaves what is lent as it was; another length is refused with 10, before
// all else.
#![tactic(auto)]

ghost use Rattle.std.specs.Prelude.{◌≡◌};
ghost use Rattle.cubie.specs.Cube.{refusal_of};
ghost use Rattle.calls.specs.Calls.{Leaves, mul_call, move_call, moves_call, solved_call, solvable_call, counts_call, four_counts};
ghost use Rattle.refusal.specs.Refusals.{answered, code};

use calls::inner::{check_len, cube_at};
use cube_bytes::inner::put_cube;
use cubie::CubieCube;
use refusal::Refusal;

// The product of two cubes of 40 bytes each: cp 8, co 8, ep 12, eo 12.
pub fn mul(a: &[u8], b: &[u8], out: &mut [u8]) -> Result<(), Refusal>
    ensures { Leaves (mul_call a.now b.now out.old) (code result) out.new }
{
    check_len(out, 40)?;
    let product = cube_at(a)?.mul(cube_at(b)?)?;
    put_cube(product, out);
    Ok(())
}

// The cube after one move.
pub fn apply_move(cube: &[u8], m: u8, out: &mut [u8]) -> Result<(), Refusal>
    ensures { Leaves (move_call cube.now m out.old) (code result) out.new }
{
    check_len(out, 40)?;
    let after = cube_at(cube)?.apply_move(m)?;
    put_cube(after, out);
    Ok(())
}

// The cube after a list of moves, a byte each.
pub fn apply_moves(cube: &[u8], moves: &[u8], out: &mut [u8]) -> Result<(), Refusal>
    ensures { Leaves (moves_call cube.now moves.now out.old) (code result) out.new }
{
    check_len(out, 40)?;
    let after = cube_at(cube)?.apply_moves(moves)?;
    put_cube(after, out);
    Ok(())
}

// Whether a cube is solved: one byte, 1 or 0.
pub fn is_solved(cube: &[u8], out: &mut [u8]) -> Result<(), Refusal>
    ensures { Leaves (solved_call cube.now out.old) (code result) out.new }
{
    check_len(out, 1)?;
    out[0] = u8::from(cube_at(cube)?.is_solved()?);
    Ok(())
}

// Whether a cube is solvable: one byte, 1 or 0.
pub fn is_solvable(cube: &[u8], out: &mut [u8]) -> Result<(), Refusal>
    ensures { Leaves (solvable_call cube.now out.old) (code result) out.new }
{
    check_len(out, 1)?;
    out[0] = u8::from(cube_at(cube)?.is_solvable()?);
    Ok(())
}

fn counts_of(c: CubieCube) -> Result<[u8; 4], Refusal>
    ensures { result ≡ answered (refusal_of c) (four_counts c) }
{
    cubie::inner::check(c)?;
    Ok([
        cubie::inner::count_corner_twist(c),
        cubie::inner::count_edge_twist(c),
        cubie::inner::count_corner_perm(c),
        cubie::inner::count_edge_perm(c),
    ])
}

// The four counts, a byte each: corner twists, edge flips, corner swaps, edge swaps.
pub fn counts(cube: &[u8], out: &mut [u8]) -> Result<(), Refusal>
    ensures { Leaves (counts_call cube.now out.old) (code result) out.new }
{
    check_len(out, 4)?;
    out.copy_from_slice(&counts_of(cube_at(cube)?)?);
    Ok(())
}
