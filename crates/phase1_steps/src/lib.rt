// What stands below the search of phase 1: Phase1State of kewb's src/two_phase/solver.rs, and what its solve_phase1 does at a position.
#![tactic(auto)]

use numbering::{Co, ECombo, Eo};

pub mod inner;

// A position of phase 1, and the move that led to it; 18 is no move yet. Eight bytes: it travels in one register.
#[derive(Clone, Copy)]
pub struct Phase1State {
    pub co: Co,
    pub eo: Eo,
    pub e: ECombo,
    pub last: u8,
}
