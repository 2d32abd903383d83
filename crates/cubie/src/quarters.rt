// The six quarter turns, as kewb's src/cube/moves.rs has them; a move is one of them taken one, two or three times.
use crate::CubieCube;

pub const U_MOVE: CubieCube = CubieCube {
    cp: [3, 0, 1, 2, 4, 5, 6, 7],
    co: [0, 0, 0, 0, 0, 0, 0, 0],
    ep: [0, 1, 2, 3, 7, 4, 5, 6, 8, 9, 10, 11],
    eo: [0, 0, 0, 0, 0, 0, 0, 0, 0, 0, 0, 0],
};

pub const D_MOVE: CubieCube = CubieCube {
    cp: [0, 1, 2, 3, 7, 4, 5, 6],
    co: [0, 0, 0, 0, 0, 0, 0, 0],
    ep: [0, 1, 2, 3, 4, 5, 6, 7, 11, 8, 9, 10],
    eo: [0, 0, 0, 0, 0, 0, 0, 0, 0, 0, 0, 0],
};

pub const R_MOVE: CubieCube = CubieCube {
    cp: [0, 2, 5, 3, 4, 6, 1, 7],
    co: [0, 1, 2, 0, 0, 1, 2, 0],
    ep: [0, 5, 9, 3, 4, 2, 6, 7, 8, 1, 10, 11],
    eo: [0, 0, 0, 0, 0, 0, 0, 0, 0, 0, 0, 0],
};

pub const L_MOVE: CubieCube = CubieCube {
    cp: [7, 1, 2, 0, 3, 5, 6, 4],
    co: [2, 0, 0, 1, 2, 0, 0, 1],
    ep: [11, 1, 2, 7, 4, 5, 6, 0, 8, 9, 10, 3],
    eo: [0, 0, 0, 0, 0, 0, 0, 0, 0, 0, 0, 0],
};

pub const F_MOVE: CubieCube = CubieCube {
    cp: [0, 1, 3, 4, 5, 2, 6, 7],
    co: [0, 0, 1, 2, 1, 2, 0, 0],
    ep: [0, 1, 6, 8, 4, 5, 3, 7, 2, 9, 10, 11],
    eo: [0, 0, 1, 1, 0, 0, 1, 0, 1, 0, 0, 0],
};

pub const B_MOVE: CubieCube = CubieCube {
    cp: [1, 6, 2, 3, 4, 5, 7, 0],
    co: [1, 2, 0, 0, 0, 0, 1, 2],
    ep: [4, 10, 2, 3, 1, 5, 6, 7, 8, 9, 0, 11],
    eo: [1, 1, 0, 0, 1, 0, 0, 0, 0, 0, 1, 0],
};

// In the order of the layers, U D R L F B.
pub const QUARTERS: [CubieCube; 6] = [U_MOVE, D_MOVE, R_MOVE, L_MOVE, F_MOVE, B_MOVE];
