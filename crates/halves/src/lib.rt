// Products by halves: 02, request j. The product of two polynomials with numbers below BCNS's q, that of `schemes`, modulo X^L + 1 and q, by 01's plain rule in fewer steps: each
// product of two factors of n numbers is made of three of half the length, down to 32. `product` is a call and has no `requires`.
// The work is done in the one slice of 6 L numbers that is lent as scratch: it holds the factors, their product in their place, and the room for it. A leaf alone
// has arrays of its own, of 1,296 bytes, which the compiler knows to lie apart from the scratch. Every number in the scratch is reduced, by 02b's remainder, so
// that no step takes a branch on a number and each is an equation of remainders. (A trial in C that only kept the numbers below 2^32 was a sixth quicker.)

#![tactic(auto)]

ghost use Rattle.std.specs.Prelude.{◌≡◌, ℕ, ◌+◌, ◌-◌, ◌*◌, ◌/◌, ◌%◌, ◌^◌, ◌<◌, ◌≤◌, length, get_or, replicate};
ghost use Rattle.lists.specs.Entries.{tab};
ghost use Rattle.lists.specs.Ranges.{Stored};
ghost use Rattle.refusals.specs.Seen.{told, shown, seen};
ghost use Rattle.halves.specs.Halves.{q, size_up_to, size_in_lem, factors, product_tests_lem, plain, product_seen, product_result};
ghost use Rattle.halves.specs.Steps.{Size, from, Ahead, Product, Padded, Rows, Spread, Joined, Fit};

use refusals::Refusal;
use schemes::Bcns;

const Q: u64 = Bcns::Q as u64;

fn plus(x: u32, y: u32) -> u32
    ensures { result ≡ (x + y) % q }
{
    numbers::fold((x as u64) + (y as u64)) as u32
}

fn minus(x: u32, y: u32) -> u32
    ensures { result ≡ (x + (q - y)) % q }
{
    numbers::fold((x as u64) + (Q - (y as u64))) as u32
}

// m - x - y
fn less_both(m: u32, x: u32, y: u32) -> u32
    ensures { result ≡ (m + (q - x) + (q - y)) % q }
{
    numbers::fold((m as u64) + (Q - (x as u64)) + (Q - (y as u64))) as u32
}

// The sums of the n numbers at x and those at y.
fn add(w: &mut [u32], x: usize, y: usize, to: usize, n: usize)
    requires n_in_bounds { (x + n ≤ length w.old) × (y + n ≤ length w.old) × (to + n ≤ length w.old) }
    requires ahead { Ahead x to n × Ahead y to n }
    ensures { Stored 0 w.old to n (λ (k : ℕ). (from w.old x k + from w.old y k) % q) w.new }
{
    for i in 0..n {
        w[to + i] = plus(w[x + i], w[y + i]);
    }
}

// The n numbers at `to`, less those at x and those at y.
fn subtract(w: &mut [u32], x: usize, y: usize, to: usize, n: usize)
    requires n_in_bounds { (x + n ≤ length w.old) × (y + n ≤ length w.old) × (to + n ≤ length w.old) }
    requires ahead { Ahead x to n × Ahead y to n }
    ensures { Stored 0 w.old to n (λ (k : ℕ). (from w.old to k + (q - from w.old x k) + (q - from w.old y k)) % q) w.new }
{
    for i in 0..n {
        w[to + i] = less_both(w[to + i], w[x + i], w[y + i]);
    }
}

fn times(x: u32, y: u32) -> u64
    ensures { result ≡ x * y }
{
    (x as u64) * (y as u64)
}

// The low 33 bits of a product, and the others.
fn low(p: u64) -> u64
    ensures { result ≡ p % 8589934592 }
{
    p & 8589934591
}

fn high(p: u64) -> u64
    ensures { (result ≡ p / 8589934592) × (result ≤ 2147483647) }
{
    p >> 33
}

// The second factor, with a zero on either side.
fn lay_second(w: &[u32], b: &mut [u64])
    requires in_bounds { (64 ≤ length w.now) × (length b.old ≡ 34) }
    requires by_index { (k : ℕ) → get_or b.old k 0 ≡ 0 }
    ensures { Padded w.now b.new }
{
    for k in 0..32 {
        b[1 + k] = w[32 + k] as u64;
    }
}

// The kernel: two numbers of the first factor times the second, which reach 33 columns. The low and the high bits of the products are summed apart, in two
// words that never pass 2^38, and since 2^33 leaves 2 the remainder of the low sum and twice the high one is that of all. (Cut in the middle, at 32, a product
// would be made twice: a compiler takes its upper half for an operation of its own.)
fn two_rows(w: &[u32], b: &[u64], lows: &mut [u64], highs: &mut [u64], i: usize)
    requires padded { Padded w.now b.now × Rows w.now i lows.old highs.old }
    requires in_bounds { (64 ≤ length w.now) × (i + 2 ≤ 32) }
    ensures { Rows w.now (i + 2) lows.new highs.new }
{
    let x = w[i];
    let y = w[i + 1];
    for k in 0..33 {
        let p = times(x, b[k + 1] as u32);
        let r = times(y, b[k] as u32);
        lows[i + k] += low(p) + low(r);
        highs[i + k] += high(p) + high(r);
    }
}

fn rows(w: &[u32], b: &[u64], lows: &mut [u64], highs: &mut [u64])
    requires padded { Padded w.now b.now × Rows w.now 0 lows.old highs.old }
    requires in_bounds { 64 ≤ length w.now }
    ensures { Rows w.now 32 lows.new highs.new }
{
    for i in 0..16 {
        two_rows(w, b, lows, highs, 2 * i);
    }
}

// The columns, each reduced once.
fn settle(lows: &[u64], highs: &[u64], w: &mut [u32])
    requires lows_len { (length lows.now ≡ 64) × (length highs.now ≡ 64) × (64 ≤ length w.old) }
    requires by_index { (k : ℕ) → k < 64 → (get_or lows.now k 0 < 2 ^ 40) × (get_or highs.now k 0 < 2 ^ 40) }
    ensures { Stored 0 w.old 0 64 (λ (k : ℕ). (get_or lows.now k 0 + 2 * get_or highs.now k 0) % q) w.new }
{
    for k in 0..64 {
        w[k] = numbers::fold(lows[k] + 2 * highs[k]) as u32;
    }
}

// The shortest product, by the plain rule.
fn leaf(w: &mut [u32])
    requires { 160 ≤ length w.old }
    ensures { Product w.old 32 w.new }
{
    let mut b = [0u64; 34];
    let mut lows = [0u64; 64];
    let mut highs = [0u64; 64];
    lay_second(&w[..], &mut b);
    rows(&w[..], &b, &mut lows, &mut highs);
    settle(&lows, &highs, w);
}

// Factors of 2 h numbers, lower and upper half each, become the pairs of lower halves, of upper halves and of sums.
fn spread(w: &mut [u32], h: usize)
    requires { 12 * h ≤ length w.old }
    ensures { Spread w.old h w.new }
{
    add(w, 0, h, 4 * h, h);
    add(w, 2 * h, 3 * h, 5 * h, h);
    w.copy_within(h..2 * h, 6 * h);
    w.copy_within(2 * h..3 * h, h);
    w.copy_within(6 * h..7 * h, 2 * h);
}

// The product of the sums, less the two others, is what lies in the middle.
fn join(w: &mut [u32], h: usize)
    requires { 12 * h ≤ length w.old }
    ensures { Joined w.old h w.new }
{
    subtract(w, 0, 2 * h, 10 * h, 2 * h);
    add(w, h, 10 * h, h, 2 * h);
}

// The two factors of n numbers at the front of w become their product of 2 n. Of the 12 h numbers each product of half the length is lent the 6 h from its own
// factors on, the last one first, and is then moved out of the way: six times the length, which 02 asks as scratch, is what every step has, and none needs more.
fn halves(w: &mut [u32], n: usize)
    requires n_in_bounds { 6 * n ≤ length w.old }
    requires size { Size n }
    ensures { Product w.old n w.new }
{
    if n <= 32 {
        leaf(w);
    } else {
        let h = n / 2;
        let two = 2 * h;
        let four = 4 * h;
        let six = 6 * h;
        let eight = 8 * h;
        let ten = 10 * h;
        spread(w, h);
        halves(&mut w[four..ten], h);
        w.copy_within(four..six, ten);
        halves(&mut w[two..eight], h);
        w.copy_within(two..four, eight);
        halves(&mut w[0..six], h);
        w.copy_within(eight..ten, two);
        join(w, h);
    }
}

// The product of twice as many numbers at the front of w, folded modulo X^n + 1: what passes X^(n - 1) comes round with a minus.
fn fold_into(w: &[u32], out: &mut [u32])
    requires { 2 * length out.old ≤ length w.now }
    ensures { out.new ≡ tab (length out.old) (λ (k : ℕ). (get_or w.now k 0 + (q - get_or w.now (length out.old + k) 0)) % q) }
{
    let n = out.len();
    for i in 0..n {
        out[i] = minus(w[i], w[n + i]);
    }
}

// The work, once nothing is refused.
fn multiply(a: &[u32], b: &[u32], out: &mut [u32], scratch: &mut [u32])
    requires { Fit (length out.old) a.now b.now (length scratch.old) }
    ensures { out.new ≡ plain (factors a.now b.now) }
{
    let n = out.len();
    scratch[..n].copy_from_slice(a);
    scratch[n..2 * n].copy_from_slice(b);
    halves(scratch, n);
    fold_into(scratch, out);
}

// 32 times a power of two up to 1024.
#[tactic(auto, unfolding(crate::specs::Halves::size_up_to))]
fn is_size(n: usize) -> bool
    ensures { result ≡ size_up_to 5 n }
{
    matches!(n, 32 | 64 | 128 | 256 | 512 | 1024)
}

fn size_in(n: usize) -> Result<(), Refusal>
    ensures { result ≡ size_in_lem n }
{
    if is_size(n) {
        Ok(())
    } else {
        Err(Refusal::BadLength)
    }
}

// The tests in their order.
fn product_tests(a: &[u32], b: &[u32], room: usize, scratch: usize) -> Result<(), Refusal>
    ensures { result ≡ product_tests_lem (factors a.now b.now) room scratch }
{
    let n = a.len();
    size_in(n)?;
    refusals::length_is(b.len(), n)?;
    refusals::room_for(room, n)?;
    refusals::room_for(scratch, 6 * n)?;
    refusals::publics_in(Bcns::Q, a)?;
    refusals::publics_in(Bcns::Q, b)
}

// The product into zeros, where nothing is refused; the scratch is left as it is then.
fn product_in(a: &[u32], b: &[u32], out: &mut [u32], scratch: &mut [u32]) -> Result<usize, Refusal>
    requires { out.old ≡ replicate (length out.old) 0 }
    ensures { seen (told result) out.new ≡ shown (product_tests_lem (factors a.now b.now) (length out.old) (length scratch.old)) (plain (factors a.now b.now)) 0 (length out.old) }
{
    product_tests(a, b, out.len(), scratch.len())?;
    let n = a.len();
    multiply(a, b, &mut out[..n], scratch);
    Ok(n)
}

// Product: a, b. The scratch is zeroed last, refused or not.
pub fn product(a: &[u32], b: &[u32], out: &mut [u32], scratch: &mut [u32]) -> Result<usize, Refusal>
    ensures { product_seen (told result) out.new scratch.new ≡ product_result (factors a.now b.now) (length out.old) (length scratch.old) }
{
    out.fill(0);
    let r = product_in(a, b, out, scratch);
    scratch.fill(0);
    r
}
