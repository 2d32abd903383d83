// What phase 2 does at one position: its coordinates, its end, its cut, and the position after a move.
#![tactic(auto)]

use numbering::{Cp, EEp, UdEp};

pub mod inner;

// What a search hands back is one word: the budget left and, times HIGH, how it came out, which is 0 while the search is open.
// For 150 cubes a `Result<u32, Stop>` took 5.5 seconds where the word took 3.1, and a struct of two u32 4.0 where the word took 2.4.
pub const HIGH: u64 = 4294967296;

pub const NOTHING: u64 = 1;

pub const SPENT: u64 = 2;

pub const REFUSED: u64 = 3;

// Solved by no move; a word has one more for each move.
pub const SOLVED: u64 = 4;

// A position of phase 2, and the move that led to it; 18 is no move yet. Eight bytes: it travels in one register.
#[derive(Clone, Copy)]
pub struct Phase2State {
    pub cp: Cp,
    pub ep: UdEp,
    pub e: EEp,
    pub last: u8,
}
