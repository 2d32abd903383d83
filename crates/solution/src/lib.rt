// What the program `solve` prints: the turns that solve a cube, and the cube unfolded, from the bytes that it reads.
#![tactic(auto)]

ghost use Rattle.std.specs.Prelude.{◌≡◌, ◌-◌, ◌≤◌, ◌<◌, ◌+◌, ltb, length, get_or};
ghost use Rattle.base.specs.Lists.{pick, Under};
ghost use Rattle.lines.specs.Lines.{line, refused_word};
ghost use Rattle.refusal.specs.Refusals.{number};
ghost use Rattle.words.specs.Answers.{over};
ghost use Rattle.search.specs.Solve.{HasMoves};
ghost use Rattle.solution.specs.Drawing.{drawing, net_text};
ghost use Rattle.solution.specs.Request.{amount_of, budget_text, limit_text, solution_text};
ghost use Rattle.solution.specs.Text.{turns_line, count_lines, solved_text, answer_text, printed_as};

use cubie::CubieCube;
use lines::inner::{find, put_bytes, put_line, text_start};
use lines::{MOVES, REFUSED, STROKES};
use list_text::inner::put_spaced;
use refusal::Refusal;
use search::Found;

// A text and its length.
#[derive(Clone, Copy)]
pub struct Printed {
    pub text: [u8; 256],
    pub len: usize,
}

// The budget that is meant where none is told.
pub const DEFAULT_BUDGET: u64 = 1000000000;

// The greatest limit of a search.
const MAX_LIMIT: u64 = 31;

const TURNS: [u8; 8] = *b"solution";

const PHASE1: [u8; 7] = *b"phase1 ";

const PHASE2: [u8; 7] = *b"phase2 ";

const ENTRIES: [u8; 8] = *b"entries ";

const NONE: [u8; 5] = *b"none\n";

const SPENT: [u8; 6] = *b"spent\n";

const BAD_BUDGET: [u8; 11] = *b"bad budget\n";

const BAD_INPUT: [u8; 10] = *b"bad input\n";

// The unfolded cube: a space, an LF, or a sticker whose number is 48 less than the byte.
const UNFOLDED: [u8; 159] =
    *b"       0 1 2\n       3 4 5\n       6 7 8\nT U V  B C D  9 : ;  ] ^ _\nW X Y  E F G  < = >  ` a b\nZ [ \\  H I J  ? @ A  c d e\n       K L M\n       N O P\n       Q R S\n";

// ---- texts

fn print_bytes(bytes: &[u8]) -> Printed
    requires { length bytes.now ≤ 256 }
    ensures { (result ≡ printed_as bytes.now) × (result.len ≤ 256) }
{
    let mut text = [0u8; 256];
    let len = put_bytes(bytes, &mut text, 0);
    Printed { text, len }
}

fn print_refused(r: Refusal) -> Printed
    ensures { (result ≡ printed_as (line refused_word (number r))) × (result.len ≤ 256) }
{
    let mut text = [0u8; 256];
    let len = put_line(&REFUSED, u64::from(u8::from(r)), &mut text, 0);
    Printed { text, len }
}

// Writes the line of the turns; its length.
fn put_turns(one: &[u8], two: &[u8], out: &mut [u8]) -> usize
    requires { Under 18 one.now × Under 18 two.now × (length (turns_line one.now two.now) ≤ length out.old) }
    ensures value { result ≡ length (turns_line one.now two.now) }
    ensures out_after { out.new ≡ over out.old 0 (turns_line one.now two.now) }
{
    let a = put_bytes(&TURNS, out, 0);
    let b = put_spaced(one, out, a);
    let c = put_spaced(two, out, b);
    out[c] = b'\n';
    c + 1
}

// Writes the lines of the five numbers from `at` on; the place after them.
fn put_counts(one: &[u8], two: &[u8], count: u32, out: &mut [u8], at: usize) -> usize
    requires { (length one.now ≤ 31) × (length two.now ≤ 31) × (at + length (count_lines one.now two.now count) ≤ length out.old) }
    ensures value { result ≡ at + length (count_lines one.now two.now count) }
    ensures out_after { out.new ≡ over out.old at (count_lines one.now two.now count) }
{
    let both = (one.len() + two.len()) as u64;
    let strokes = (scramble::strokes(one) + scramble::strokes(two)) as u64;
    let a = put_line(&PHASE1, one.len() as u64, out, at);
    let b = put_line(&PHASE2, two.len() as u64, out, a);
    let c = put_line(&MOVES, both, out, b);
    let d = put_line(&STROKES, strokes, out, c);
    put_line(&ENTRIES, count as u64, out, d)
}

// The text of two lists that solve a cube.
fn print_solved(one: &[u8], two: &[u8], count: u32) -> Printed
    requires { Under 18 one.now × Under 18 two.now × (length one.now ≤ 31) × (length two.now ≤ 31) }
    ensures { (result ≡ printed_as (solved_text one.now two.now count)) × (result.len ≤ 256) }
{
    let mut text = [0u8; 256];
    let at = put_turns(one, two, &mut text);
    let len = put_counts(one, two, count, &mut text, at);
    Printed { text, len }
}

// The text of an answer of the search.
fn print_answer(s: search::Solution) -> Printed
    requires { HasMoves s }
    ensures { (result ≡ printed_as (answer_text s)) × (result.len ≤ 256) }
{
    match s.found {
        Found::Solved => print_solved(&s.phase1[..s.n1], &s.phase2[..s.n2], s.count),
        Found::Nothing => print_bytes(&NONE),
        Found::Spent => print_bytes(&SPENT),
        Found::Refused(r) => print_refused(r),
    }
}

// ---- what is asked

// The number of a line: the usual one for an empty line, and none for one that isn't a number.
fn amount(text: &[u8], usual: u64) -> Option<u64>
    ensures { result ≡ amount_of usual text.now }
{
    let n = text.len();
    if n == 0 {
        return Some(usual);
    }
    if 10 < n {
        return None;
    }
    let mut value: u64 = 0;
    for c in text {
        if !c.is_ascii_digit() {
            return None;
        }
        value = 10 * value + ((*c - b'0') as u64);
    }
    Some(value)
}

// The text for a cube and a limit: what stands behind the second line is the budget's line, and nothing may come after it.
fn with_limit(cube: CubieCube, limit: u8, text: &[u8], moves: &[u16], prunes: &[u8]) -> Printed
    ensures { (result ≡ printed_as (budget_text cube limit text.now moves.now prunes.now)) × (result.len ≤ 256) }
{
    let end = find(text, b'\n');
    let Some(budget) = amount(&text[..end], DEFAULT_BUDGET) else {
        return print_bytes(&BAD_BUDGET);
    };
    if 4294967295 < budget {
        return print_bytes(&BAD_BUDGET);
    }
    if end + 1 < text.len() {
        return print_bytes(&BAD_INPUT);
    }
    print_answer(solver::solve(cube, limit, budget as u32, moves, prunes))
}

// The text for a cube: what stands behind the first line is the limit's line, then the rest.
fn with_cube(cube: CubieCube, text: &[u8], moves: &[u16], prunes: &[u8]) -> Printed
    ensures { (result ≡ printed_as (limit_text cube text.now moves.now prunes.now)) × (result.len ≤ 256) }
{
    let end = find(text, b'\n');
    let Some(limit) = amount(&text[..end], 23) else {
        return print_refused(Refusal::Limit);
    };
    if MAX_LIMIT < limit {
        return print_refused(Refusal::Limit);
    }
    let start = text_start(text, end);
    with_limit(cube, limit as u8, &text[start..], moves, prunes)
}

// What is printed for the bytes that were read: the turns that solve the cube, or why there are none.
pub fn solution(input: &[u8], moves: &[u16], prunes: &[u8]) -> Printed
    ensures value { result ≡ printed_as (solution_text input.now moves.now prunes.now) }
    ensures len_bound { result.len ≤ 256 }
{
    if 1024 < input.len() {
        return print_refused(Refusal::Length);
    }
    let end = find(input, b'\n');
    match facelet::read_strict(&input[..end]) {
        Err(r) => print_refused(r),
        Ok(cube) => {
            let start = text_start(input, end);
            with_cube(cube, &input[start..], moves, prunes)
        }
    }
}

// ---- the cube unfolded

// What a byte of the drawing shows.
fn shown(s: &[u8], byte: u8) -> u8
    requires { (length s.now ≡ 54) × (byte < 102) }
    ensures { result ≡ pick (ltb byte 48) byte (get_or s.now (byte - 48) 0) }
{
    if byte < b'0' {
        return byte;
    }
    s[(byte - b'0') as usize]
}

// Writes the 54 stickers as the unfolded cube.
fn draw(s: &[u8], out: &mut [u8])
    requires { (length s.now ≡ 54) × (159 ≤ length out.old) }
    ensures { out.new ≡ over out.old 0 (drawing s.now) }
{
    for i in 0..159 {
        out[i] = shown(s, UNFOLDED[i]);
    }
}

// What is printed for the bytes that were read: the cube unfolded, also where its stickers fit no cube.
pub fn net(input: &[u8]) -> Printed
    ensures value { result ≡ printed_as (net_text input.now) }
    ensures len_bound { result.len ≤ 256 }
{
    if 1024 < input.len() {
        return print_refused(Refusal::Length);
    }
    let end = find(input, b'\n');
    if end != 54 {
        return print_refused(Refusal::Stickers);
    }
    if !stickers::inner::all_colors(&input[..end]) {
        return print_refused(Refusal::Letter);
    }
    let mut text = [0u8; 256];
    draw(&input[..end], &mut text);
    Printed { text, len: 159 }
}
