// Lines as bytes: the first line of a text, and words and numbers written one behind the other.
#![tactic(auto)]

pub mod inner;

// Words that more than one program writes.
pub const REFUSED: [u8; 8] = *b"refused ";

pub const MOVES: [u8; 6] = *b"moves ";

pub const STROKES: [u8; 8] = *b"strokes ";
