// What other crates call, each with what its caller must show.
ghost use Rattle.std.specs.Prelude.{◌≡◌, ◌≤◌, ◌<◌, ◌+◌, ◌-◌, length};
ghost use Rattle.std.proofs.Math.Seq.{paste};
ghost use Rattle.base.specs.Lists.{Under, in_range, same_list};
ghost use Rattle.base.specs.Perm.{no_repeat};

// Whether each is below `n`.
pub fn in_range(s: &[u8], n: u8) -> bool
    ensures { result ≡ in_range n s.now }
{
    s.iter().all(|x| *x < n)
}

// Whether no piece stands twice: a bit for each piece met, and the count of the bits decides.
pub fn all_differ(s: &[u8]) -> bool
    requires { (length s.now ≤ 32) × Under 32 s.now }
    ensures { result ≡ no_repeat s.now }
{
    let mut met: u32 = 0;
    for x in s {
        met |= 1 << *x;
    }
    met.count_ones() as usize == s.len()
}
