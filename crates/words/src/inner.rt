// One move to its word and back.
ghost use Rattle.std.specs.Prelude.{◌≡◌, ◌+◌, ◌≤◌, ◌<◌, eqb, length};
ghost use Rattle.words.specs.Answers.{over};
ghost use Rattle.words.specs.Text.{letters, word_of, place, number_of};

// The letters of the six layers.
const LETTERS: [u8; 6] = [b'U', b'D', b'R', b'L', b'F', b'B'];

// The marks of a half turn and of three quarter turns.
const MARKS: [u8; 2] = [b'2', b'\''];

// ---- one word

// The layer of a letter, 6 for any other byte. (A number, and each test once: an `Option` of it and a pattern of the word take a text 1.3 to 1.6 times
// as long.)
fn layer_of(letter: u8) -> u8
    ensures { result ≡ place (eqb letter) letters }
{
    match letter {
        b'U' => 0,
        b'D' => 1,
        b'R' => 2,
        b'L' => 3,
        b'F' => 4,
        b'B' => 5,
        _ => 6,
    }
}

// The number of the move that a word names, 18 if it names none: `put_moves` promises a number for each word of any text.
pub fn number_of(word: &[u8]) -> u8
    ensures { result ≡ number_of word.now }
{
    let n = word.len();
    if n == 0 {
        return 18;
    }
    let layer = layer_of(word[0]);
    if layer == 6 {
        return 18;
    }
    if n == 1 {
        return layer * 3;
    }
    if n != 2 {
        return 18;
    }
    match word[1] {
        b'2' => layer * 3 + 1,
        b'\'' => layer * 3 + 2,
        _ => 18,
    }
}

// The bytes of a move's word: a letter, and a mark unless it is a quarter turn.
pub fn word_len(m: u8) -> usize
    ensures { result ≡ length (word_of m) }
{
    if m % 3 == 0 { 1 } else { 2 }
}

// Writes a move's word from `at` on; the place after it.
pub fn put_word(m: u8, text: &mut [u8], at: usize) -> usize
    requires { (m < 18) × (at + length (word_of m) ≤ length text.old) }
    ensures value { result ≡ at + length (word_of m) }
    ensures text_after { text.new ≡ over text.old at (word_of m) }
{
    text[at] = LETTERS[(m / 3) as usize];
    if m % 3 == 0 {
        return at + 1;
    }
    text[at + 1] = MARKS[(m % 3 - 1) as usize];
    at + 2
}
