// The check sums of tables, FNV-1a of 64 bits, and the greatest entry of a table.
#![tactic(auto)]

ghost use Rattle.std.specs.Prelude.{◌≡◌};
ghost use Rattle.checksum.specs.Sum.{fnv_step, fnv, bytes16, greatest_of};

use std::num::wrapping_add_u64;

// What FNV-1a begins with.
const OFFSET: u64 = 0xcbf2_9ce4_8422_2325;

// One byte more. The prime is 2^40 + 435: times it, what stands above the low 24 bits keeps only its product with 435 in 64 bits.
fn step(sum: u64, byte: u8) -> u64
    ensures { result ≡ fnv_step sum byte }
{
    let x = sum ^ (byte as u64);
    let high = x / 0x100_0000 * 435 % 0x100_0000_0000 * 0x100_0000;
    wrapping_add_u64(high, x % 0x100_0000 * 0x100_0000_01b3)
}

// The sum of bytes.
pub fn sum8(s: &[u8]) -> u64
    ensures { result ≡ fnv s.now }
{
    let mut sum = OFFSET;
    for x in s {
        sum = step(sum, *x);
    }
    sum
}

// The sum of entries of 16 bits, the low byte of each first.
pub fn sum16(s: &[u16]) -> u64
    ensures { result ≡ fnv (bytes16 s.now) }
{
    let mut sum = OFFSET;
    for x in s {
        let [low, high] = x.to_le_bytes();
        sum = step(step(sum, low), high);
    }
    sum
}

// The greatest entry, 0 of none.
pub fn greatest(s: &[u8]) -> u8
    ensures { result ≡ greatest_of s.now }
{
    let mut most: u8 = 0;
    for x in s {
        most = most.max(*x);
    }
    most
}
