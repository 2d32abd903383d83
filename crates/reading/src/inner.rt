// Corners and edges looked up by what their places show.
ghost use Rattle.std.specs.Prelude.{◌≡◌, map, ◌<◌, length};
ghost use Rattle.base.specs.Lists.{pick, range};
ghost use Rattle.stickers.specs.Reader.{is_ud, corner_fits, edge_fits, at_corner, at_edge, corner_read, twist_read, edge_read, flip_read, cube_read};

use cubie::CubieCube;
use stickers::{CORNER_COLOR, CORNER_FACELET, EDGE_COLOR, EDGE_FACELET};

// The first of the three places that shows U or D, by the letters at the first two; else 2.
fn twist_seen(a: u8, b: u8) -> usize
    ensures { result ≡ pick (is_ud a) 0 (pick (is_ud b) 1 2) }
{
    if matches!(a, b'U' | b'D') {
        0
    } else if matches!(b, b'U' | b'D') {
        1
    } else {
        2
    }
}

// The letter at place k of corner i.
#[tactic(auto, unfolding(stickers::specs::Stickers::corner_facelet))]
fn at_corner(s: &[u8], i: usize, k: usize) -> u8
    requires { (length s.now ≡ 54) × (i < 8) × (k < 3) }
    ensures { result ≡ at_corner s.now i k }
{
    s[CORNER_FACELET[i * 3 + k] as usize]
}

// The letter at place k of edge i.
#[tactic(auto, unfolding(stickers::specs::Stickers::edge_facelet))]
fn at_edge(s: &[u8], i: usize, k: usize) -> u8
    requires { (length s.now ≡ 54) × (i < 12) × (k < 2) }
    ensures { result ≡ at_edge s.now i k }
{
    s[EDGE_FACELET[i * 2 + k] as usize]
}

#[tactic(auto, unfolding(stickers::specs::Stickers::corner_color))]
fn corner_fits(a: u8, b: u8, j: usize) -> bool
    requires { j < 8 }
    ensures { result ≡ corner_fits a b j }
{
    a == CORNER_COLOR[j * 3 + 1] && b == CORNER_COLOR[j * 3 + 2]
}

// Way k is the edge k / 2, unflipped where k is even, else flipped.
#[tactic(auto, unfolding(stickers::specs::Stickers::edge_color))]
fn edge_fits(a: u8, b: u8, k: usize) -> bool
    requires { k < 24 }
    ensures { result ≡ edge_fits a b k }
{
    a == EDGE_COLOR[k] && b == EDGE_COLOR[k / 2 * 2 + (1 - k % 2)]
}

// The corner and the twist at each place: as the paper asks, nested labelled loops, the inner one yielding the piece by its break.
fn read_corners(s: &[u8]) -> ([u8; 8], [u8; 8])
    requires { length s.now ≡ 54 }
    ensures corners { result.0 ≡ map (corner_read s.now) (range 0 8) }
    ensures twists { result.1 ≡ map (twist_read s.now) (range 0 8) }
{
    let mut cp = [0; 8];
    let mut co = [0; 8];
    'places: for i in 0..8 {
        let twist = twist_seen(at_corner(s, i, 0), at_corner(s, i, 1));
        let a = at_corner(s, i, (twist + 1) % 3);
        let b = at_corner(s, i, (twist + 2) % 3);
        let mut j: usize = 0;
        let piece = 'pieces: loop {
            if j == 8 {
                break 'pieces None;
            }
            if corner_fits(a, b, j) {
                break 'pieces Some(j);
            }
            j += 1;
        };
        (cp[i], co[i]) = match piece {
            Some(j) => (j as u8, twist as u8),
            None => (i as u8, 0), // the solved corner, untwisted
        };
    }
    (cp, co)
}

// The edge and the flip at each place: as the paper asks, nested labelled loops, the inner one yielding the piece by its break.
fn read_edges(s: &[u8]) -> ([u8; 12], [u8; 12])
    requires { length s.now ≡ 54 }
    ensures edges { result.0 ≡ map (edge_read s.now) (range 0 12) }
    ensures flips { result.1 ≡ map (flip_read s.now) (range 0 12) }
{
    let mut ep = [0; 12];
    let mut eo = [0; 12];
    'places: for i in 0..12 {
        let a = at_edge(s, i, 0);
        let b = at_edge(s, i, 1);
        let mut k: usize = 0;
        let way = 'ways: loop {
            if k == 24 {
                break 'ways None;
            }
            if edge_fits(a, b, k) {
                break 'ways Some(k);
            }
            k += 1;
        };
        (ep[i], eo[i]) = match way {
            Some(k) => ((k / 2) as u8, (k % 2) as u8),
            None => (i as u8, 0), // the solved edge, unflipped
        };
    }
    (ep, eo)
}

// The cube that 54 stickers are read as.
pub fn cube_read(s: &[u8]) -> CubieCube
    requires { length s.now ≡ 54 }
    ensures { result ≡ cube_read s.now }
{
    let (cp, co) = read_corners(s);
    let (ep, eo) = read_edges(s);
    CubieCube { cp, co, ep, eo }
}
