// Replays recorded answers of kewb about cubes, moves, stickers, move text, coordinates and the search, and says how many agree. Standard
// input holds a case a line (oracle/README.md).
#![tactic(auto)]

use replay::{part_at, unhex};
use std::io;
use table_io::inner::{moves_room, prunes_room};

// Runs a case of a kind on what it was given; 255 is no kind.
fn call(kind: u8, a: &[u8], b: &[u8], out: &mut [u8]) -> u8 {
    match kind {
        1 => unit::tsunghawi_mul(a, b, out),
        3 => unit::tsunghawi_apply_moves(a, b, out),
        4 => unit::tsunghawi_is_solved(a, out),
        5 => unit::tsunghawi_is_solvable(a, out),
        6 => unit::tsunghawi_counts(a, out),
        11 => unit::tsunghawi_read_plain(a, out),
        12 => unit::tsunghawi_read_strict(a, out),
        13 => unit::tsunghawi_picture(a, out),
        _ => call_with_move(kind, a, b, out),
    }
}

// The kinds that take a move by its number.
fn call_with_move(kind: u8, a: &[u8], b: &[u8], out: &mut [u8]) -> u8 {
    match (kind, a, b) {
        (7, [m], _) => unit::tsunghawi_get_inverse(*m, out),
        (2, _, [m]) => unit::tsunghawi_apply_move(a, *m, out),
        (8, [m], [n]) => unit::tsunghawi_is_inverse(*m, *n, out),
        (9, [m], [n]) => unit::tsunghawi_is_same_layer(*m, *n, out),
        (10, [m], [n]) => unit::tsunghawi_is_move_available(*m, *n, out),
        _ => 255,
    }
}

// Runs a case, and says whether its number and its bytes are those that were recorded.
fn same_case(
    kind: u8,
    a: &[u8],
    b: &[u8],
    number: u8,
    want: &[u8],
    moves: &[u16],
    prunes: &[u8],
    out: &mut [u8],
) -> bool {
    match kind {
        14 | 15 => same_text(kind, a, number, want, out),
        16 => same_index(a, b, number, want),
        17 => same_arrangement(a, b, number, want, out),
        18 => same_solve(a, b, number, want, moves, prunes),
        _ => call(kind, a, b, out) == number && *out == *want,
    }
}

// The kinds of move text.
fn call_text(kind: u8, a: &[u8], out: &mut [u8], count: &mut usize) -> u8 {
    if kind == 14 {
        return unit::tsunghawi_scramble_from_str(a, out, count);
    }
    unit::tsunghawi_scramble_to_str(a, out, count)
}

// The same for move text, with its count, which holds 0xeeee before the call.
fn same_count(kind: u8, a: &[u8], number: u8, want: &[u8], wanted: usize, out: &mut [u8]) -> bool {
    let mut count: usize = 0xeeee;
    call_text(kind, a, out, &mut count) == number && count == wanted && *out == *want
}

// A case of move text: behind the bytes that were lent stands the count, in two bytes.
fn same_text(kind: u8, a: &[u8], number: u8, want: &[u8], out: &mut [u8]) -> bool {
    let [bytes @ .., high, low] = want else {
        return false;
    };
    let room = bytes.len();
    if out.len() < room + 2 {
        return false;
    }
    let wanted = u16::from_be_bytes([*high, *low]) as usize;
    same_count(kind, a, number, bytes, wanted, &mut out[..room])
}

// A case of a coordinate's number, which holds 0xee in each of its four bytes before the call.
fn same_index(a: &[u8], b: &[u8], number: u8, want: &[u8]) -> bool {
    let ([kind], [p, q, r, s]) = (a, want) else {
        return false;
    };
    let mut found: u32 = 0xeeeeeeee;
    unit::tsunghawi_arrangement_to_index(*kind, b, &mut found) == number
        && found == u32::from_be_bytes([*p, *q, *r, *s])
}

// A case of the arrangement of a number, which is in four bytes.
fn same_arrangement(a: &[u8], b: &[u8], number: u8, want: &[u8], out: &mut [u8]) -> bool {
    let ([kind], [p, q, r, s]) = (a, b) else {
        return false;
    };
    let n = u32::from_be_bytes([*p, *q, *r, *s]);
    unit::tsunghawi_index_to_arrangement(*kind, n, out) == number && *out == *want
}

// Whether both rooms and the word that came back are those that were recorded.
fn same_found(one: &[u8], two: &[u8], word: u64, want: &[u8]) -> bool {
    if want.len() != 70 {
        return false;
    }
    let bytes = word.to_be_bytes();
    bytes.as_slice() == &want[62..] && one == &want[..31] && two == &want[31..62]
}

// A case of the search: the limit and the budget are in five bytes, and the number is the low byte of the word that comes back.
fn same_solve(a: &[u8], b: &[u8], number: u8, want: &[u8], moves: &[u16], prunes: &[u8]) -> bool {
    let [limit, p, q, r, s] = b else {
        return false;
    };
    let budget = u32::from_be_bytes([*p, *q, *r, *s]);
    // the turns of each phase, 0xee before the call
    let mut one = [0xee; 31];
    let mut two = [0xee; 31];
    let word = unit::tsunghawi_solve(a, *limit, budget, moves, prunes, &mut one, &mut two);
    word % 256 == number as u64 && same_found(&one, &two, word, want)
}

// Whether the case of a line agrees: a kind, two parts, a number and a part.
fn agrees(line: &[u8], moves: &[u16], prunes: &[u8], room: &mut [u8]) -> bool {
    let a = part_at(line, 1);
    let b = part_at(line, a.end);
    if line.len() <= b.end {
        return false;
    }
    let want = part_at(line, b.end + 1);
    let size = want.end - want.start;
    if room.len() < size {
        return false;
    }
    same_case(
        line[0],
        &line[a.start..a.end],
        &line[b.start..b.end],
        line[b.end],
        &line[want.start..want.end],
        moves,
        prunes,
        &mut room[..size],
    )
}

fn line_agrees(text: &[u8], moves: &[u16], prunes: &[u8]) -> bool {
    let mut line = [0; 256];
    let n = unhex(text, &mut line);
    // the lent bytes hold 0xee before each call, so that a refusal that changed them would show
    let mut room = [0xee; 256];
    agrees(&line[..n], moves, prunes, &mut room)
}

// Whether the case of a line agrees; a comment is none.
fn verdict(text: &[u8], moves: &[u16], prunes: &[u8]) -> Option<bool> {
    match text {
        [b'#', ..] => None,
        _ => Some(line_agrees(text, moves, prunes)),
    }
}

fn tell_differs(rt: &impl Print, number: u64, text: &[u8]) -> io::Result<()> {
    print!(rt; "differs: case {number}: ")?;
    rt.write_all(text)?;
    print!(rt; "\n")
}

fn tell_agree(rt: &impl Print, count: u64) -> io::Result<()> {
    println!(rt; "cases that agree: {count}")
}

// Stops at the first case that differs, and names it by its number and its line.
#[tactic(auto, using(crate::proofs::Found::index_le))]
fn replay_all(rt: &impl Print, text: &[u8], moves: &[u16], prunes: &[u8]) -> io::Result<()> {
    let mut agreed: u64 = 0;
    let mut at = 0;
    // not by `split`, which gives one line more behind the last LF
    while at < text.len() {
        let end = at + lines::inner::find(&text[at..], b'\n');
        match verdict(&text[at..end], moves, prunes) {
            Some(false) => return tell_differs(rt, agreed + 1, &text[at..end]),
            Some(true) => agreed += 1,
            None => {}
        }
        at = end + 1;
    }
    tell_agree(rt, agreed)
}

// Says with which refusal's number the tables were refused.
fn tell_refused(rt: &impl Print, number: u8) -> io::Result<()> {
    println!(rt; "tables refused: {number}")
}

// Builds both blocks of tables, for the search; the paper's number, 0 for none.
fn build(moves: &mut [u16], prunes: &mut [u8]) -> u8 {
    let six = unit::tsunghawi_get_move_tables(moves);
    if six != 0 {
        return six;
    }
    unit::tsunghawi_get_prune_tables(moves, prunes)
}

// Room for the recorded text.
fn room() -> [u8; 480000] {
    [0; 480000]
}

// Reads the recorded text and replays it.
fn replay_input<R: Input + Print>(rt: &R, moves: &[u16], prunes: &[u8]) -> io::Result<()> {
    let mut text = room();
    let n = stream::read_full(&mut rt.reader(), &mut text)?;
    replay_all(rt, &text[..n], moves, prunes)
}

fn main(rt: HostRuntime) -> io::Result<()> {
    let mut moves = moves_room();
    let mut prunes = prunes_room();
    let refused = build(&mut moves, &mut prunes);
    if refused != 0 {
        return tell_refused(&rt, refused);
    }
    replay_input(&rt, &moves, &prunes)
}
