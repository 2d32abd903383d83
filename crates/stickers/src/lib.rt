// A cube as its 54 stickers: where each piece shows its colours.
#![tactic(auto)]

pub mod inner;

pub const SOLVED_FACE_CUBE: [u8; 54] = *b"UUUUUUUUURRRRRRRRRFFFFFFFFFDDDDDDDDDLLLLLLLLLBBBBBBBBB";

// The stickers at the three places of each corner.
pub const CORNER_FACELET: [u8; 24] = [
    0, 36, 47, // UBL
    2, 45, 11, // UBR
    8, 9, 20, // UFR
    6, 18, 38, // UFL
    27, 44, 24, // DFL
    29, 26, 15, // DFR
    35, 17, 51, // DBR
    33, 53, 42, // DBL
];

// The stickers at the two places of each edge.
pub const EDGE_FACELET: [u8; 24] = [
    50, 39, // BL
    48, 14, // BR
    23, 12, // FR
    21, 41, // FL
    1, 46, // UB
    5, 10, // UR
    7, 19, // UF
    3, 37, // UL
    28, 25, // DF
    32, 16, // DR
    34, 52, // DB
    30, 43, // DL
];

// The letters of each corner.
pub const CORNER_COLOR: [u8; 24] = [
    b'U', b'L', b'B', // UBL
    b'U', b'B', b'R', // UBR
    b'U', b'R', b'F', // UFR
    b'U', b'F', b'L', // UFL
    b'D', b'L', b'F', // DFL
    b'D', b'F', b'R', // DFR
    b'D', b'R', b'B', // DBR
    b'D', b'B', b'L', // DBL
];

// The letters of each edge.
pub const EDGE_COLOR: [u8; 24] = [
    b'B', b'L', // BL
    b'B', b'R', // BR
    b'F', b'R', // FR
    b'F', b'L', // FL
    b'U', b'B', // UB
    b'U', b'R', // UR
    b'U', b'F', // UF
    b'U', b'L', // UL
    b'D', b'F', // DF
    b'D', b'R', // DR
    b'D', b'B', // DB
    b'D', b'L', // DL
];
