// What the judgement is made of: the score, and its text.
ghost use Rattle.std.specs.Prelude.{◌≡◌, ◌+◌, ◌≤◌, length, take, IfOk};
ghost use Rattle.base.specs.Lists.{Under};
ghost use Rattle.cubie.specs.Cube.{InRange};
ghost use Rattle.words.specs.Answers.{over};
ghost use Rattle.judgement.specs.Judge.{closed, score_of, score_moves, scored, Short, solved_line, score_text, printed_as};

use crate::{Printed, Score};
use cubie::CubieCube;
use lines::inner::{put_bytes, put_line};
use lines::{MOVES, REFUSED, STROKES};
use refusal::Refusal;

// The two lines of the answer.
const SOLVED_YES: [u8; 11] = *b"solved yes\n";

const SOLVED_NO: [u8; 10] = *b"solved no\n";

// What is read has at most so many bytes.
const MAX_INPUT: usize = 1024;

// ---- the score

// What a list of moves does to a cube.
fn score_list(cube: CubieCube, moves: &[u8]) -> Score
    requires { InRange cube × Under 18 moves.now }
    ensures { result ≡ score_of cube moves.now }
{
    let after = cubie::inner::apply_moves(cube, moves);
    Score {
        moves: moves.len(),
        strokes: scramble::strokes(moves),
        solved: cubie::inner::is_solved(after),
    }
}

// What a move text does to a cube.
fn score_moves(cube: CubieCube, text: &[u8]) -> Result<Score, Refusal>
    requires { InRange cube }
    ensures { result ≡ score_moves cube text.now }
{
    let mut moves = [0u8; 255];
    let n = scramble::scramble_from_str(text, &mut moves)?;
    Ok(score_list(cube, &moves[..n]))
}

// Where a text ends without its closing LF.
fn closed_end(text: &[u8]) -> usize
    ensures { (result ≤ length text.now) × (take result text.now ≡ closed text.now) }
{
    let n = text.len();
    if n == 0 {
        return 0;
    }
    if text[n - 1] == b'\n' { n - 1 } else { n }
}

// The score of the moves after a sticker line.
fn score_text(cube: CubieCube, text: &[u8]) -> Result<Score, Refusal>
    requires { InRange cube }
    ensures { result ≡ score_moves cube (closed text.now) }
{
    let end = closed_end(text);
    score_moves(cube, &text[..end])
}

// The score of what was read.
pub fn score(input: &[u8]) -> Result<Score, Refusal>
    ensures { result ≡ scored input.now }
{
    if input.len() > MAX_INPUT {
        return Err(Refusal::Length);
    }
    let end = lines::inner::find(input, b'\n');
    let cube = facelet::read_strict(&input[..end])?;
    let start = lines::inner::text_start(input, end);
    score_text(cube, &input[start..])
}

// ---- its text

// Writes the line of the answer; the place after it.
fn put_solved(solved: bool, out: &mut [u8], at: usize) -> usize
    requires { at + length (solved_line solved) ≤ length out.old }
    ensures value { result ≡ at + length (solved_line solved) }
    ensures out_after { out.new ≡ over out.old at (solved_line solved) }
{
    if solved {
        put_bytes(&SOLVED_YES, out, at)
    } else {
        put_bytes(&SOLVED_NO, out, at)
    }
}

// Writes the text of a score, or of a refusal; its length.
fn put_score(score: Result<Score, Refusal>, out: &mut [u8]) -> usize
    requires { (64 ≤ length out.old) × IfOk score Short }
    ensures value { result ≡ length (score_text score) }
    ensures out_after { out.new ≡ over out.old 0 (score_text score) }
{
    match score {
        Err(r) => put_line(&REFUSED, u64::from(u8::from(r)), out, 0),
        Ok(score) => {
            let a = put_line(&MOVES, score.moves as u64, out, 0);
            let b = put_line(&STROKES, score.strokes as u64, out, a);
            put_solved(score.solved, out, b)
        }
    }
}

// The text of a score, or of a refusal.
pub fn print(score: Result<Score, Refusal>) -> Printed
    requires { IfOk score Short }
    ensures { result ≡ printed_as (score_text score) }
{
    let mut text = [0u8; 64];
    let len = put_score(score, &mut text);
    Printed { text, len }
}
