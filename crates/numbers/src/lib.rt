// Remainders of signed numbers, in i32 and in i64: 01, "Reconciliation", and its form "the signed remainder nearest to zero". The definitions
// are `specs/Residue.antt`; the laws on sums, congruence and circular distance, which the crates above cite, stand in `proofs/`.
// A modulus q is at least 1 and fits the signed type. In i32 nothing else is asked. In i64 nothing is divided: either x is smaller than q in size (`residue64`,
// `negate64`), or q is 2^32 - 1 (02b; `fold`, and `residue_folded` of signed numbers). Frodo's and BCNS's slack used (02f) come down to `way_out`.

#![tactic(auto)]

ghost use Rattle.std.specs.Prelude.{◌≡◌, ◌+◌, ◌-◌, ◌/◌, ◌%◌, ◌^◌, ◌≤◌, ◌<◌, min, neg_ℤ, nat_abs};
ghost use Rattle.numbers.specs.Residue.{residue, nearest, distance};

// The remainder in 0 .. q - 1. The machine's own has the sign of x: where it is below 0, q is added once.
pub fn residue32(x: i32, q: u32) -> u32
    requires { (0 < q) × (q < 2 ^ 31) }
    ensures { result ≡ residue q x }
{
    let r = x % (q as i32);
    if r < 0 {
        (r + (q as i32)) as u32
    } else {
        r as u32
    }
}

// The remainder nearest to zero: -q <= 2r < q.
pub fn nearest32(x: i32, q: u32) -> i32
    requires { (0 < q) × (q < 2 ^ 31) }
    ensures { result ≡ nearest q x }
{
    let m = residue32(x, q);
    if 2 * m < q {
        m as i32
    } else {
        (m as i32) - (q as i32)
    }
}

// How far x lies from 0. One is added on the way: the least number's negative does not fit.
pub fn size32(x: i32) -> u32
    ensures { result ≡ nat_abs x }
{
    if x < 0 {
        (0 - (x + 1)) as u32 + 1
    } else {
        x as u32
    }
}

// How far x lies from the nearest multiple of q.
pub fn distance32(x: i32, q: u32) -> u32
    requires { (0 < q) × (q < 2 ^ 31) }
    ensures { result ≡ distance q x }
{
    size32(nearest32(x, q))
}

// The remainder in 0 .. q - 1 of a number that is smaller than q in size: where it is below 0, q is added once. The test is a factor 0 or 1, so that loops over
// it become instructions on several numbers at a time.
pub fn residue64(x: i64, q: u64) -> u64
    requires { (nat_abs x < q) × (q < 2 ^ 63) }
    ensures { result ≡ residue q x }
{
    (x + (q as i64) * ((x < 0) as i64)) as u64
}

// The remainder of -x in 0 .. q - 1.
pub fn negate64(x: i64, q: u64) -> u64
    requires { (nat_abs x < q) × (q < 2 ^ 63) }
    ensures { result ≡ residue q (neg_ℤ x) }
{
    residue64(0 - x, q)
}

// The way out of a stretch of n numbers from place y, to its nearer end; 0 where y is past it. Without a branch, for y is a secret: a test is a factor 0 or 1.
pub fn way_out(y: u32, n: u32) -> u32
    requires { y < 4294967295 }
    ensures { result ≡ min (y + 1) (n - y) }
{
    let inside = (y < n) as u32;
    let ahead = (n - y * inside) * inside;
    let less = (y + 1 < ahead) as u32;
    (y + 1) * less + ahead * (1 - less)
}

// 2^32 - 1, which is BCNS's q, and 2^30 times that, which is added to signed numbers before they are folded.
const FULL: u64 = 4294967295;

const ABOVE: i64 = 1073741824 * (FULL as i64);

// The high and the low half of x, added.
fn halves_sum(x: u64) -> u64
    ensures { result ≡ x / 4294967296 + x % 4294967296 }
{
    (x >> 32) + (x & FULL)
}

// The remainder of any number by 2^32 - 1 (02b): since 2^32 leaves 1, the halves add. Once leaves at most 2^33 - 2, twice at most 2^32 - 1, and that itself
// becomes 0, without a branch, for x is a secret.
pub fn fold(x: u64) -> u64
    ensures { result ≡ x % 4294967295 }
{
    let once = halves_sum(x);
    let twice = halves_sum(once);
    twice - FULL * ((twice >= FULL) as u64)
}

// The remainder of a signed number by 2^32 - 1: a multiple of 2^32 - 1 brings it above zero first. 2^30 times is the largest such power that leaves room for numbers
// of up to 2^61 in size, far more than a product's sum needs, so that any caller may fold.
pub fn residue_folded(x: i64) -> u32
    requires { nat_abs x ≤ 2 ^ 61 }
    ensures { result ≡ residue 4294967295 x }
{
    fold((x + ABOVE) as u64) as u32
}
