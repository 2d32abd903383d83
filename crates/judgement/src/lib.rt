// Do these moves solve this cube? What the program `judge` prints, from the bytes that it reads.
#![tactic(auto)]

ghost use Rattle.std.specs.Prelude.{◌≡◌};
ghost use Rattle.judgement.specs.Judge.{printed};

pub mod inner;

// What the moves do to the cube.
#[derive(Clone, Copy)]
pub struct Score {
    pub moves: usize,
    pub strokes: usize,
    pub solved: bool,
}

// A text and its length: C is lent these 64 bytes, zeros behind the text.
#[derive(Clone, Copy)]
pub struct Printed {
    pub text: [u8; 64],
    pub len: usize,
}

// What is printed for the bytes that were read.
pub fn judge(input: &[u8]) -> Printed
    ensures { result ≡ printed input.now }
{
    inner::print(inner::score(input))
}
