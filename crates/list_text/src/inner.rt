// The loops from text to moves and back, without the tests of the public functions.
ghost use Rattle.std.specs.Prelude.{◌≡◌, map, ◌+◌, ◌≤◌, ◌<◌, ◌^◌, leb, length};
ghost use Rattle.base.specs.Lists.{Under};
ghost use Rattle.words.specs.Answers.{over, moves_counted};
ghost use Rattle.words.specs.Text.{word_of, spaced, text_of, parse};

use refusal::Refusal;
use words::inner::{number_of, put_word, word_len};

// ---- from a text to its moves

// How many moves a text has; 7 for a text that is no move list.
pub fn count_moves(text: &[u8]) -> Result<usize, Refusal>
    ensures { result ≡ moves_counted (parse text.now) }
{
    if text.is_empty() {
        return Ok(0);
    }
    let mut n = 0;
    for word in text.split(|b| *b == b' ') {
        if number_of(word) >= 18 {
            return Err(Refusal::Move);
        }
        n += 1;
    }
    Ok(n)
}

// Writes the numbers of the `n` words of a text.
pub fn put_moves(text: &[u8], n: usize, moves: &mut [u8])
    requires { (n ≡ length (parse text.now)) × (n ≤ length moves.old) }
    ensures { moves.new ≡ over moves.old 0 (parse text.now) }
{
    // an empty text has no words, where `split` gives one
    if n == 0 {
        return;
    }
    for (i, word) in text.split(|b| *b == b' ').enumerate() {
        moves[i] = number_of(word);
    }
}

// ---- from moves to their text

// Whether the text of a list has at most `room` bytes. Each word takes a place more, for the space that the last one lacks.
pub fn text_fits(moves: &[u8], room: usize) -> bool
    requires { room < 2 ^ 63 }
    ensures { result ≡ leb (length (text_of moves.now)) room }
{
    let mut left = room + 1;
    for m in moves {
        let need = word_len(*m) + 1;
        if left < need {
            return false;
        }
        left -= need;
    }
    true
}

// Writes the words of a list from `at` on, each with a space before it; the place after them.
pub fn put_spaced(moves: &[u8], text: &mut [u8], at: usize) -> usize
    requires { Under 18 moves.now × (at + length (spaced (map word_of moves.now)) ≤ length text.old) }
    ensures value { result ≡ at + length (spaced (map word_of moves.now)) }
    ensures text_after { text.new ≡ over text.old at (spaced (map word_of moves.now)) }
{
    let mut end = at;
    for m in moves {
        text[end] = b' ';
        end = put_word(*m, text, end + 1);
    }
    end
}

// Writes the text of a list of moves; how many bytes it has.
pub fn put_text(moves: &[u8], text: &mut [u8]) -> usize
    requires { Under 18 moves.now × (length (text_of moves.now) ≤ length text.old) }
    ensures value { result ≡ length (text_of moves.now) }
    ensures text_after { text.new ≡ over text.old 0 (text_of moves.now) }
{
    if moves.is_empty() {
        return 0;
    }
    let at = put_word(moves[0], text, 0);
    put_spaced(&moves[1..], text, at)
}
