// Why something is refused: the fifteen reasons, each with its number.
#![tactic(auto)]

ghost use Rattle.std.specs.Prelude.{◌≡◌};
ghost use Rattle.refusal.specs.Refusals.{number, code, lowest};

// In the order of their numbers, 1 to 15.
#[derive(Clone, Copy, Debug, PartialEq, Eq)]
pub enum Refusal {
    // not 54 stickers
    Stickers = 1,
    // a sticker that is none of U R F D L B
    Letter = 2,
    // the cube read isn't solvable
    Unsolvable = 3,
    // a corner above 7
    Corner = 4,
    // an edge above 11
    Edge = 5,
    // a twist above 2 or a flip above 1; an arrangement outside a coordinate's domain; a cube that has to be solvable and isn't
    Range = 6,
    // text that isn't a move list, or a move above 17
    Move = 7,
    // a number that isn't below its coordinate's count
    Index = 8,
    // a search's limit above 31
    Limit = 9,
    // lent memory of another length, or too short
    Length = 10,
    // an entry of a move table isn't below its coordinate's count
    Entry = 11,
    // the list found doesn't solve the cube, so that it isn't given
    LastCheck = 12,
    // a table isn't true
    Table = 13,
    // a pruning table can't be built: some pair is out of reach
    Unreached = 14,
    // the stickers differ from the picture of the cube read
    Picture = 15,
}

impl From<Refusal> for u8 {
    ghost from_gives = { λ r n. n ≡ number r };

    fn from(r: Refusal) -> u8 {
        r as u8
    }
}

// The number that the C interface returns: that of the refusal, 0 for none.
pub fn code(answer: Result<(), Refusal>) -> u8
    ensures { result ≡ code answer }
{
    match answer {
        Ok(()) => 0,
        Err(r) => r.into(),
    }
}

// The lowest of two refusals.
pub fn lowest(a: Result<(), Refusal>, b: Result<(), Refusal>) -> Result<(), Refusal>
    ensures { result ≡ lowest a b }
{
    match (a, b) {
        (Err(r), Err(s)) => { if u8::from(r) <= u8::from(s) { a } else { b } }
        (Err(_), Ok(())) => a,
        (Ok(()), _) => b,
    }
}
