// What the programs replay_* share: a recorded case is a line of hex, and its parts are lengths and bytes.
#![tactic(auto)]

ghost use Rattle.std.specs.Prelude.{◌≡◌, min, length};
ghost use Rattle.std.proofs.Math.Seq.{paste};
ghost use Rattle.replay.specs.Record.{nibble_of, unhexed, fitting, part_at, Within};

// The value of a hex digit, 0 for any other byte.
#[tactic(auto, unfolding(crate::specs::Record::nibble_of))]
fn nibble(c: u8) -> u8
    ensures { result ≡ nibble_of c }
{
    match c {
        b'a'..=b'f' => c - b'a' + 10,
        b'0'..=b'9' => c - b'0',
        _ => 0,
    }
}

// Writes the bytes that pairs of hex digits stand for, as far as there is room, and answers how many.
pub fn unhex(text: &[u8], out: &mut [u8]) -> usize
    ensures value { result ≡ fitting text.now out.old }
    ensures out_after { out.new ≡ paste out.old 0 (unhexed text.now) (fitting text.now out.old) }
{
    let n = (text.len() / 2).min(out.len());
    for i in 0..n {
        out[i] = nibble(text[2 * i]) * 16 + nibble(text[2 * i + 1]);
    }
    n
}

// Where a part's bytes begin and end.
#[derive(Clone, Copy)]
pub struct Part {
    pub start: usize,
    pub end: usize,
}

// The part at `at`: its length in two bytes, then its bytes, cut at the line's end.
pub fn part_at(line: &[u8], at: usize) -> Part
    ensures value { result ≡ part_at line.now at }
    ensures within { Within result (length line.now) }
{
    let n = line.len();
    if n < 2 || n - 2 < at {
        return Part { start: n, end: n };
    }
    let start = at + 2;
    let len = (line[at] as usize) * 256 + line[at + 1] as usize;
    Part {
        start,
        end: (start + len).min(n),
    }
}
