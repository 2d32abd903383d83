// The stickers of a cube: kewb's src/cube/facelet.rs, and the reader of cubie.rs.
#![tactic(auto)]

ghost use Rattle.std.specs.Prelude.{◌≡◌, IfOk};
ghost use Rattle.stickers.specs.Picture.{picture_answer};
ghost use Rattle.stickers.specs.Reader.{cube_read, plain_refusal, read_plain, read_strict};

use cubie::CubieCube;
use refusal::Refusal;

// The picture of a cube: 4, 5, 6 by range, and 6 for one that isn't solvable.
pub fn picture(c: CubieCube) -> Result<[u8; 54], Refusal>
    ensures { result ≡ picture_answer c }
{
    cubie::inner::check_solvable(c)?;
    Ok(stickers::inner::picture_of(c))
}

// Reads as kewb does: what matches no piece is taken for the solved one, and centres aren't read.
pub fn read_plain(s: &[u8]) -> Result<CubieCube, Refusal>
    ensures value { result ≡ read_plain s.now }
    ensures read { IfOk result (λ c. (plain_refusal s.now ≡ 0) × (c ≡ cube_read s.now)) }
{
    if s.len() != 54 {
        return Err(Refusal::Stickers);
    }
    if !stickers::inner::all_colors(s) {
        return Err(Refusal::Letter);
    }
    let cube = reading::inner::cube_read(s);
    if !cubie::inner::is_solvable(cube) {
        return Err(Refusal::Unsolvable);
    }
    Ok(cube)
}

// Reads plainly, renders what was read, and compares all 54 stickers.
pub fn read_strict(s: &[u8]) -> Result<CubieCube, Refusal>
    ensures { result ≡ read_strict s.now }
{
    let cube = read_plain(s)?;
    if stickers::inner::picture_of(cube).as_slice() == s {
        Ok(cube)
    } else {
        Err(Refusal::Picture)
    }
}
