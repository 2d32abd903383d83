// The loops of the product and of the counts, over a row of any length.
ghost use Rattle.std.specs.Prelude.{◌≡◌, ◌≤◌, ◌<◌, ◌+◌, ◌-◌, ◌%◌, length};
ghost use Rattle.base.specs.Lists.{Under, total};
ghost use Rattle.base.specs.Parity.{swaps, Settled};
ghost use Rattle.base.specs.Product.{compose, twisted};

// One place of the selection loop: where place `i` does not hold `i`, it is swapped with the first later place that does.
fn settle(p: &mut [u8], i: usize) -> u8
    requires { i < length p.old }
    ensures { Settled i p.old p.new result }
{
    if p[i] as usize == i {
        return 0;
    }
    // A loop: `position` over the later places makes the count a third slower.
    for j in i + 1..p.len() {
        if p[j] as usize == i {
            p.swap(i, j);
            return 1;
        }
    }
    0
}

// The swaps that sort the working copy `p`: their parity is that of the arrangement.
pub fn count_swaps(p: &mut [u8]) -> u8
    requires { length p.old ≤ 12 }
    ensures { result ≡ swaps p.old }
{
    let mut count = 0;
    for i in 0..p.len() {
        count += settle(p, i);
    }
    count
}

// The turns that are left to bring each of `s` to 0 modulo `k`.
pub fn count_turns(s: &[u8], k: u8) -> u8
    requires { (length s.now ≤ 12) × (0 < k) × (k ≤ 3) × Under k s.now }
    ensures { result ≡ total (λ x. (k - x) % k) s.now }
{
    let mut count = 0;
    for x in s {
        count += (k - *x) % k;
    }
    count
}

// The pieces of `p` at the places that `q` names.
pub fn permute(p: &[u8], q: &[u8], out: &mut [u8])
    requires { (length q.now ≡ length out.old) × Under (length p.now) q.now }
    ensures { out.new ≡ compose p.now q.now }
{
    for (i, o) in out.iter_mut().enumerate() {
        *o = p[q[i] as usize];
    }
}

// The same as a row of N. (`map` of an array asks for a bound on the stack that no N shows.)
pub fn permute_row<const N: usize>(p: &[u8], q: &[u8; N]) -> [u8; N]
    requires { Under (length p.now) q.now }
    ensures { result ≡ compose p.now q.now }
{
    let mut out = [0; N];
    permute(p, q, &mut out);
    out
}

// The twists of `t` at the places that `q` names, and those of `s` on top, modulo `k`.
pub fn twist(t: &[u8], q: &[u8], s: &[u8], k: u8, out: &mut [u8])
    requires q_len { (length q.now ≡ length out.old) × (length s.now ≡ length out.old) }
    requires under { Under (length t.now) q.now }
    requires under_2 { Under k t.now × Under k s.now × (0 < k) × (k ≤ 3) }
    ensures { out.new ≡ twisted k t.now q.now s.now }
{
    for (i, o) in out.iter_mut().enumerate() {
        *o = (t[q[i] as usize] + s[i]) % k;
    }
}

// The same as a row of N.
pub fn twist_row<const N: usize>(t: &[u8], q: &[u8; N], s: &[u8; N], k: u8) -> [u8; N]
    requires under { Under (length t.now) q.now }
    requires under_2 { Under k t.now × Under k s.now × (0 < k) × (k ≤ 3) }
    ensures { result ≡ twisted k t.now q.now s.now }
{
    let mut out = [0; N];
    twist(t, q, s, k, &mut out);
    out
}
