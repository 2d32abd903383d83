// Stickers, move text and the judge on lent bytes: each function refuses or writes into lent bytes, which a refusal leaves as they were.
#![tactic(auto)]

ghost use Rattle.std.specs.Prelude.{◌≡◌};
ghost use Rattle.calls.specs.Calls.{Leaves};
ghost use Rattle.refusal.specs.Refusals.{code, value_or};
ghost use Rattle.stickers.specs.Reader.{read_plain, read_strict};
ghost use Rattle.words.specs.Answers.{parsed_text, parsed_room, written_text, written_room};
ghost use Rattle.words.specs.Text.{text_of};
ghost use Rattle.texts.specs.Judge.{judge_number, judge_room, judge_count, judge_word};
ghost use Rattle.texts.specs.Stickers.{read_call, picture_call};

use calls::inner::{check_len, cube_at};
use cube_bytes::inner::put_cube;
use refusal::Refusal;

// What the judge's word holds above the refusal's byte: solved, a move, a stroke.
const SOLVED: u64 = 256;

const ONE_MOVE: u64 = 65536;

const ONE_STROKE: u64 = 4294967296;

// The cube that 54 stickers are read as, as kewb reads: what matches no piece is taken for the solved one.
pub fn read_plain(stickers: &[u8], out: &mut [u8]) -> Result<(), Refusal>
    ensures { Leaves (read_call read_plain stickers.now out.old) (code result) out.new }
{
    check_len(out, 40)?;
    put_cube(facelet::read_plain(stickers)?, out);
    Ok(())
}

// The cube whose picture the 54 stickers are, and no other.
pub fn read_strict(stickers: &[u8], out: &mut [u8]) -> Result<(), Refusal>
    ensures { Leaves (read_call read_strict stickers.now out.old) (code result) out.new }
{
    check_len(out, 40)?;
    put_cube(facelet::read_strict(stickers)?, out);
    Ok(())
}

// The 54 stickers of a cube.
pub fn picture(cube: &[u8], out: &mut [u8]) -> Result<(), Refusal>
    ensures { Leaves (picture_call cube.now out.old) (code result) out.new }
{
    check_len(out, 54)?;
    out.copy_from_slice(&facelet::picture(cube_at(cube)?)?);
    Ok(())
}

// The moves of a text, in the first places of `list`, and how many they are.
pub fn scramble_from_str(text: &[u8], list: &mut [u8], count: &mut usize) -> Result<(), Refusal>
    ensures value { code result ≡ code (parsed_text text.now list.old) }
    ensures list_after { list.new ≡ parsed_room text.now list.old }
    ensures count_after { count.new ≡ value_or count.old (parsed_text text.now list.old) }
{
    *count = scramble::scramble_from_str(text, list)?;
    Ok(())
}

// The text of a list of moves, in the first bytes of `text`, and how many they are.
pub fn scramble_to_str(list: &[u8], text: &mut [u8], count: &mut usize) -> Result<(), Refusal>
    ensures value { code result ≡ code (written_text list.now (text_of list.now) text.old) }
    ensures text_after { text.new ≡ written_room list.now (text_of list.now) text.old }
    ensures count_after { count.new ≡ value_or count.old (written_text list.now (text_of list.now) text.old) }
{
    *count = scramble::scramble_to_str(list, text)?;
    Ok(())
}

// Whether moves solve a cube: what the program `judge` prints for `input`, in the first of 64 bytes, and how many they are.
pub fn judge(input: &[u8], out: &mut [u8], count: &mut usize) -> Result<(), Refusal>
    ensures value { code result ≡ judge_number out.old }
    ensures out_after { out.new ≡ judge_room input.now out.old }
    ensures count_after { count.new ≡ judge_count input.now out.old count.old }
{
    check_len(out, 64)?;
    let said = judgement::judge(input);
    out.copy_from_slice(&said.text);
    *count = said.len;
    Ok(())
}

// Whether moves solve a cube: the refusal's number or, where it is 0, whether they do, how many they are and their strokes, in one word.
pub fn judge_word(input: &[u8]) -> u64
    ensures { result ≡ judge_word input.now }
{
    match judgement::inner::score(input) {
        Err(r) => u64::from(u8::from(r)),
        Ok(score) => {
            let solved = if score.solved { SOLVED } else { 0 };
            ONE_MOVE * (score.moves as u64) + ONE_STROKE * (score.strokes as u64) + solved
        }
    }
}
