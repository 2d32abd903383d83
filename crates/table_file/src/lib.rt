// The bytes of 16-bit entries, the low byte first, as a file of the tables holds them.
#![tactic(auto)]

ghost use Rattle.std.specs.Prelude.{◌≡◌, ◌*◌, eqb};
ghost use Rattle.table_file.specs.File.{two_each, bytes_left, entries_left};

// Whether there are two bytes for each entry.
fn two_each(entries: usize, bytes: usize) -> bool
    ensures { result ≡ eqb bytes (2 * entries) }
{
    bytes % 2 == 0 && bytes / 2 == entries
}

// The entries as bytes, two each; false where there is another room than that, which is then as it was.
pub fn to_bytes(entries: &[u16], bytes: &mut [u8]) -> bool
    ensures value { result ≡ two_each entries.now bytes.old }
    ensures bytes_after { bytes.new ≡ bytes_left entries.now bytes.old }
{
    if !two_each(entries.len(), bytes.len()) {
        return false;
    }
    for (i, x) in entries.iter().enumerate() {
        let [low, high] = x.to_le_bytes();
        bytes[2 * i] = low;
        bytes[2 * i + 1] = high;
    }
    true
}

// The entries that the bytes say; false where there is another room than one for each two bytes, which is then as it was.
pub fn from_bytes(bytes: &[u8], entries: &mut [u16]) -> bool
    ensures value { result ≡ two_each entries.old bytes.now }
    ensures entries_after { entries.new ≡ entries_left bytes.now entries.old }
{
    if !two_each(entries.len(), bytes.len()) {
        return false;
    }
    for (i, x) in entries.iter_mut().enumerate() {
        *x = u16::from_le_bytes([bytes[2 * i], bytes[2 * i + 1]]);
    }
    true
}
