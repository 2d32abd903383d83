// Drawing a cube, and the six letters.
ghost use Rattle.std.specs.Prelude.{◌≡◌, ◌<◌, ◌*◌, length};
ghost use Rattle.base.specs.Lists.{Under};
ghost use Rattle.cubie.specs.Cube.{refusal_of};
ghost use Rattle.stickers.specs.Picture.{paint, shown, picture};
ghost use Rattle.stickers.specs.Reader.{is_color, all_colors};

use crate::{CORNER_COLOR, CORNER_FACELET, EDGE_COLOR, EDGE_FACELET, SOLVED_FACE_CUBE};
use cubie::CubieCube;

// Paints the letters of pieces with n places each: p are the pieces, t their turns.
fn paint_pieces(p: &[u8], t: &[u8], n: usize, facelets: &[u8], colors: &[u8], face: &mut [u8])
    requires n_nonzero { (0 < n) × (length p.now * n ≡ 24) × (length t.now ≡ length p.now) × Under (length p.now) p.now × Under n t.now }
    requires facelets_len { (length facelets.now ≡ 24) × Under 54 facelets.now × (length colors.now ≡ 24) × (length face.old ≡ 54) }
    ensures { face.new ≡ paint facelets.now (shown n colors.now p.now t.now) face.old }
{
    for (k, f) in facelets.iter().enumerate() {
        let i = k / n;
        face[*f as usize] = colors[(p[i] as usize) * n + (k % n + (n - t[i] as usize)) % n];
    }
}

// The picture of a cube in range.
pub fn picture_of(c: CubieCube) -> [u8; 54]
    requires { refusal_of c ≡ 0 }
    ensures { result ≡ picture c }
{
    let mut face = SOLVED_FACE_CUBE;
    paint_pieces(&c.cp, &c.co, 3, &CORNER_FACELET, &CORNER_COLOR, &mut face);
    paint_pieces(&c.ep, &c.eo, 2, &EDGE_FACELET, &EDGE_COLOR, &mut face);
    face
}

#[tactic(auto, unfolding(crate::specs::Reader::is_color))]
fn is_color(x: u8) -> bool
    ensures { result ≡ is_color x }
{
    matches!(x, b'U' | b'R' | b'F' | b'D' | b'L' | b'B')
}

// Whether each byte is one of the letters U R F D L B.
pub fn all_colors(s: &[u8]) -> bool
    ensures { result ≡ all_colors s.now }
{
    s.iter().all(|x| is_color(*x))
}
