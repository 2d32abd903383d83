// What the programs' texts are read and written with, each with what its caller must show.
ghost use Rattle.std.specs.Prelude.{◌≡◌, ◌+◌, ◌≤◌, length, drop};
ghost use Rattle.words.specs.Answers.{over};
ghost use Rattle.lines.specs.Lines.{decimal, index_of, line};

// The index of the first byte `b`, or the length where there is none.
pub fn find(s: &[u8], b: u8) -> usize
    ensures value { result ≡ index_of b s.now }
    ensures within { result ≤ length s.now }
{
    s.iter().position(|x| *x == b).unwrap_or(s.len())
}

// Where the text after a line starts, if the line ends at `end`.
pub fn text_start(input: &[u8], end: usize) -> usize
    requires { end ≤ length input.now }
    ensures { (result ≤ length input.now) × (drop result input.now ≡ drop (end + 1) input.now) }
{
    if end < input.len() { end + 1 } else { end }
}

// Writes bytes from `at` on; the place after them.
pub fn put_bytes(bytes: &[u8], out: &mut [u8], at: usize) -> usize
    requires { at + length bytes.now ≤ length out.old }
    ensures value { result ≡ at + length bytes.now }
    ensures out_after { out.new ≡ over out.old at bytes.now }
{
    let end = at + bytes.len();
    out[at..end].copy_from_slice(bytes);
    end
}

// Writes a number in decimal from `at` on; the place after it. The digits before the last one are those of a tenth.
pub fn put_decimal(n: u64, out: &mut [u8], at: usize) -> usize
    requires { at + length (decimal n) ≤ length out.old }
    ensures value { result ≡ at + length (decimal n) }
    ensures out_after { out.new ≡ over out.old at (decimal n) }
{
    if n < 10 {
        out[at] = 48 + n as u8;
        return at + 1;
    }
    let end = put_decimal(n / 10, out, at);
    out[end] = 48 + (n % 10) as u8;
    end + 1
}

// Writes a word, a number and LF; the place after them.
pub fn put_line(word: &[u8], n: u64, out: &mut [u8], at: usize) -> usize
    requires { at + length (line word.now n) ≤ length out.old }
    ensures value { result ≡ at + length (line word.now n) }
    ensures out_after { out.new ≡ over out.old at (line word.now n) }
{
    let a = put_bytes(word, out, at);
    let b = put_decimal(n, out, a);
    out[b] = b'\n';
    b + 1
}
