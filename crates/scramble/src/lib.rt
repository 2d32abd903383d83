// Moves as text, and lists of moves: `FromStr` and `Display` of kewb's src/cube/moves.rs, and its src/cube/scramble.rs.
#![tactic(auto)]

ghost use Rattle.std.specs.Prelude.{[], ◌∷◌, ◌≡◌};
ghost use Rattle.words.specs.Answers.{parsed_move, parsed_text, parsed_room, written_text, written_room};
ghost use Rattle.words.specs.Strokes.{strokes_of};
ghost use Rattle.words.specs.Text.{word_of, text_of};

use moves::inner::{check_list, check_move};
use refusal::Refusal;

// The move that a word names.
pub fn move_from_str(word: &[u8]) -> Result<u8, Refusal>
    ensures { result ≡ parsed_move word.now }
{
    let m = words::inner::number_of(word);
    check_move(m)?;
    Ok(m)
}

// Writes the word of a move: a list of one is its move's word.
pub fn move_to_str(m: u8, text: &mut [u8]) -> Result<usize, Refusal>
    ensures value { result ≡ written_text (m ∷ []) (word_of m) text.old }
    ensures text_after { text.new ≡ written_room (m ∷ []) (word_of m) text.old }
{
    let one = [m];
    scramble_to_str(&one, text)
}

// Writes the moves of a text. A first pass finds what is refused, so that a refusal writes nothing.
pub fn scramble_from_str(text: &[u8], moves: &mut [u8]) -> Result<usize, Refusal>
    ensures value { result ≡ parsed_text text.now moves.old }
    ensures moves_after { moves.new ≡ parsed_room text.now moves.old }
{
    let n = list_text::inner::count_moves(text)?;
    if moves.len() < n {
        return Err(Refusal::Length);
    }
    list_text::inner::put_moves(text, n, moves);
    Ok(n)
}

// Writes the text of a list of moves.
pub fn scramble_to_str(moves: &[u8], text: &mut [u8]) -> Result<usize, Refusal>
    ensures value { result ≡ written_text moves.now (text_of moves.now) text.old }
    ensures text_after { text.new ≡ written_room moves.now (text_of moves.now) text.old }
{
    check_list(moves)?;
    if !list_text::inner::text_fits(moves, text.len()) {
        return Err(Refusal::Length);
    }
    Ok(list_text::inner::put_text(moves, text))
}

// The strokes of a list, shown to the therapist.
pub fn strokes(moves: &[u8]) -> usize
    ensures { result ≡ strokes_of moves.now }
{
    moves.len()
}
