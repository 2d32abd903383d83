// The six move tables: kewb's src/two_phase/moves.rs.
#![tactic(auto)]

pub mod inner;

// The block of the six tables: where each begins, and its length.
pub const CO_AT: usize = 0;

pub const EO_AT: usize = 39366;

pub const E_COMBO_AT: usize = 76230;

pub const CP_AT: usize = 85140;

pub const UD_EP_AT: usize = 488340;

pub const E_EP_AT: usize = 891540;

pub const MOVES_LEN: usize = 891780;

// The 240 entries of table 5, row after row: a row for each of the 24 orders of the middle layer's edges, a column for each of the ten moves of phase 2.
pub const E_EP_TABLE: [u16; 240] = [
    0, // row 0
    0, 0, 0, 0, 0, 2, 21, 1, 6, 1, // row 1
    1, 1, 1, 1, 1, 4, 15, 0, 7, 2, // row 2
    2, 2, 2, 2, 2, 0, 23, 3, 12, 3, // row 3
    3, 3, 3, 3, 3, 5, 9, 2, 13, 4, // row 4
    4, 4, 4, 4, 4, 1, 17, 5, 18, 5, // row 5
    5, 5, 5, 5, 5, 3, 11, 4, 19, 6, // row 6
    6, 6, 6, 6, 6, 8, 19, 7, 0, 7, // row 7
    7, 7, 7, 7, 7, 10, 13, 6, 1, 8, // row 8
    8, 8, 8, 8, 8, 6, 22, 9, 14, 9, // row 9
    9, 9, 9, 9, 9, 11, 3, 8, 15, 10, // row 10
    10, 10, 10, 10, 10, 7, 16, 11, 20, 11, // row 11
    11, 11, 11, 11, 11, 9, 5, 10, 21, 12, // row 12
    12, 12, 12, 12, 12, 14, 18, 13, 2, 13, // row 13
    13, 13, 13, 13, 13, 16, 7, 12, 3, 14, // row 14
    14, 14, 14, 14, 14, 12, 20, 15, 8, 15, // row 15
    15, 15, 15, 15, 15, 17, 1, 14, 9, 16, // row 16
    16, 16, 16, 16, 16, 13, 10, 17, 22, 17, // row 17
    17, 17, 17, 17, 17, 15, 4, 16, 23, 18, // row 18
    18, 18, 18, 18, 18, 20, 12, 19, 4, 19, // row 19
    19, 19, 19, 19, 19, 22, 6, 18, 5, 20, // row 20
    20, 20, 20, 20, 20, 18, 14, 21, 10, 21, // row 21
    21, 21, 21, 21, 21, 23, 0, 20, 11, 22, // row 22
    22, 22, 22, 22, 22, 19, 8, 23, 16, 23, // row 23
    23, 23, 23, 23, 23, 21, 2, 22, 17,
];
