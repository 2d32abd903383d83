// The moves as columns of the tables, and the sets of columns that may follow a move.
#![tactic(auto)]

pub mod inner;

// The move of each column of phase 1: kewb's order, B3 before B2, with F3 where kewb has F2 a second time.
pub const ALL_MOVES: [u8; 18] = [0, 1, 2, 3, 4, 5, 6, 7, 8, 9, 10, 11, 12, 13, 14, 15, 17, 16];

// The move of each column of phase 2: U U2 U3 D D2 D3 R2 L2 F2 B2.
pub const PHASE2_MOVES: [u8; 10] = [0, 1, 2, 3, 4, 5, 7, 10, 13, 16];

// Stands for no move yet: every move may follow it.
pub const NO_MOVE: u8 = 18;

// The columns of phase 1 that may follow a move of each layer, U D R L F B, and no move: a set has a bit for each column, U's the lowest.
pub const PHASE1_OPEN: [u32; 7] = [
    0x3fff8, 0x3ffc0, 0x3fe3f, 0x3f03f, 0x38fff, 0x00fff, 0x3ffff,
];

// The same of phase 2.
pub const PHASE2_OPEN: [u32; 7] = [0x3f8, 0x3c0, 0x3bf, 0x33f, 0x2ff, 0x0ff, 0x3ff];
