// The cube on the cubie level: kewb's src/cube/cubie.rs. The quarter turns of src/cube/moves.rs stand in `quarters`.
#![tactic(auto)]

ghost use Rattle.std.specs.Prelude.{◌≡◌};
ghost use Rattle.cubie.specs.Answers.{mul_answer, move_answer, moves_answer, solved_answer, solvable_answer};
ghost use Rattle.cubie.specs.Answers.{corner_twist_answer, edge_twist_answer, corner_perm_answer, edge_perm_answer};

use moves::inner::{check_list, check_move};
use refusal::{Refusal, lowest};

pub mod inner;
pub mod quarters;

// Which corner and which edge stands at each place, and how each is twisted or flipped.
#[derive(Clone, Copy, Debug, PartialEq, Eq)]
pub struct CubieCube {
    pub cp: [u8; 8],
    pub co: [u8; 8],
    pub ep: [u8; 12],
    pub eo: [u8; 12],
}

pub const SOLVED_CUBIE_CUBE: CubieCube = CubieCube {
    cp: [0, 1, 2, 3, 4, 5, 6, 7],
    co: [0, 0, 0, 0, 0, 0, 0, 0],
    ep: [0, 1, 2, 3, 4, 5, 6, 7, 8, 9, 10, 11],
    eo: [0, 0, 0, 0, 0, 0, 0, 0, 0, 0, 0, 0],
};

impl CubieCube {
    // The product, as `Mul` has it: the pieces of `self` at the places that `rhs` names.
    pub fn mul(self, rhs: CubieCube) -> Result<CubieCube, Refusal>
        ensures { result ≡ mul_answer self rhs }
    {
        lowest(inner::check(self), inner::check(rhs))?;
        Ok(inner::mul(self, rhs))
    }

    pub fn apply_move(self, m: u8) -> Result<CubieCube, Refusal>
        ensures { result ≡ move_answer self m }
    {
        inner::check(self).and(check_move(m))?;
        Ok(inner::apply_move(self, m))
    }

    // The moves of a lent list, one after the other.
    pub fn apply_moves(self, moves: &[u8]) -> Result<CubieCube, Refusal>
        ensures { result ≡ moves_answer self moves.now }
    {
        inner::check(self)?;
        check_list(moves)?;
        Ok(inner::apply_moves(self, moves))
    }

    // Whether each piece is at its place, and none turned.
    pub fn is_solved(self) -> Result<bool, Refusal>
        ensures { result ≡ solved_answer self }
    {
        inner::check(self)?;
        Ok(inner::is_solved(self))
    }

    // The twists that the corners still need.
    pub fn count_corner_twist(self) -> Result<u8, Refusal>
        ensures { result ≡ corner_twist_answer self }
    {
        inner::check(self)?;
        Ok(inner::count_corner_twist(self))
    }

    // The flips that the edges still need.
    pub fn count_edge_twist(self) -> Result<u8, Refusal>
        ensures { result ≡ edge_twist_answer self }
    {
        inner::check(self)?;
        Ok(inner::count_edge_twist(self))
    }

    // The swaps that sort the corners.
    pub fn count_corner_perm(self) -> Result<u8, Refusal>
        ensures { result ≡ corner_perm_answer self }
    {
        inner::check(self)?;
        Ok(inner::count_corner_perm(self))
    }

    // The swaps that sort the edges.
    pub fn count_edge_perm(self) -> Result<u8, Refusal>
        ensures { result ≡ edge_perm_answer self }
    {
        inner::check(self)?;
        Ok(inner::count_edge_perm(self))
    }

    // No piece twice, equal parity, twists 0 modulo 3, flips 0 modulo 2.
    pub fn is_solvable(self) -> Result<bool, Refusal>
        ensures { result ≡ solvable_answer self }
    {
        inner::check(self)?;
        Ok(inner::is_solvable(self))
    }
}
