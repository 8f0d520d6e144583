// Products modulo X^n + 1 and q of public numbers with secrets, which are small and signed: 01, "The calls" (BCNS); q is that of `schemes`. The laws of the ring,
// and that the two ends differ by s'e + e'' - e's, stand in `proofs/`, once over n and q.
// Entry k of as is the dot product of the secret, its last entry first, with n neighbouring entries of [-a | a], those behind entry k: what passes
// X^(n - 1) meets -a. The n dot products of a window of 2 n numbers are made of three times n / 2, W1 (s0 + s1), (W0 - W1) s0 and (W2 - W1) s1, where W0, W1
// and W2 are the three windows of n numbers in it (`proofs/Three.antt`): the secrets double where their number halves, so that the sums keep their bound.
// Where n is 64 at most, or odd, each number of the window is split into two signed halves of 16 bits, 65536 h + l, so that the sums of the products
// of a half with the secrets fit an i32; the two sums are put together in an i64, and each entry is reduced once, without a division (02b). Sixty-four
// products are one expression, which the compiler makes instructions of that multiply and add eight each (pmaddwd); in a plain loop it does not, and a tree of 128
// is no longer compiled into its caller. An Arm processor takes two products of 32 bits or four of 16, of which there are twice as many, and gains nothing.

#![tactic(auto)]

ghost use Rattle.std.specs.Prelude.{◌≡◌, ℕ, ◌+◌, ◌*◌, ◌%◌, ◌^◌, ◌<◌, ◌≤◌, ◌-◌, length, get_or, pos, neg_ℤ, nat_abs, ◌+ℤ◌, ◌-ℤ◌, ◌*ℤ◌};
ghost use Rattle.schemes.specs.Schemes.{bcns};
ghost use Rattle.numbers.specs.Residue.{residue};
ghost use Rattle.lists.specs.Entries.{tab, nums, ints};
ghost use Rattle.lists.specs.Ranges.{Below, Within, Stored};
ghost use Rattle.polynomial.specs.Product.{mixed, bare};
ghost use Rattle.polynomial.specs.Steps.{Fit, lift, upper, lower, span, slide, Pair, Ready, Prepared, Halved, Made, Summed, Joined, Windowed};

use schemes::Bcns;
use std::ops::Add;

// One product. The functions below it are a tree of sums.
fn product(w: &[i16], s: &[i16], i: usize) -> i32
    requires { Pair w.now s.now × (i < length w.now) }
    ensures { result ≡ span 1 w.now s.now i }
{
    (w[i] as i32) * (s[i] as i32)
}

fn four(w: &[i16], s: &[i16], i: usize) -> i32
    requires { Pair w.now s.now × (i + 4 ≤ length w.now) }
    ensures { result ≡ span 4 w.now s.now i }
{
    let j = i + 2;
    (product(w, s, i) + product(w, s, i + 1)) + (product(w, s, j) + product(w, s, j + 1))
}

fn sixteen(w: &[i16], s: &[i16], i: usize) -> i32
    requires { Pair w.now s.now × (i + 16 ≤ length w.now) }
    ensures { result ≡ span 16 w.now s.now i }
{
    let j = i + 8;
    (four(w, s, i) + four(w, s, i + 4)) + (four(w, s, j) + four(w, s, j + 4))
}

fn sixty_four(w: &[i16], s: &[i16], i: usize) -> i32
    requires { Pair w.now s.now × (i + 64 ≤ length w.now) }
    ensures { result ≡ span 64 w.now s.now i }
{
    let j = i + 32;
    (sixteen(w, s, i) + sixteen(w, s, i + 16)) + (sixteen(w, s, j) + sixteen(w, s, j + 16))
}

// The kernel: the sum of the products of the entries of two slices, sixty-four at a time, and then of those that are left.
fn dot_product(w: &[i16], s: &[i16]) -> i32
    requires { Pair w.now s.now }
    ensures { result ≡ span (length w.now) w.now s.now 0 }
{
    let blocks = w.len() / 64;
    let mut sum = 0;
    for b in 0..blocks {
        sum += sixty_four(w, s, 64 * b);
    }
    for i in 64 * blocks..w.len() {
        sum += product(w, s, i);
    }
    sum
}

// The n dot products of the secrets in front of t with its entries from x on, at `to` of o.
fn dots(t: &[i16], x: usize, o: &mut [i64], to: usize, n: usize)
    requires { Prepared x n t.now × (to + n ≤ length o.old) }
    ensures { Stored (pos 0) o.old to n (slide n (λ (i : ℕ). ints t.now (x + i)) (ints t.now)) o.new }
{
    for k in 0..n {
        let a = x + k;
        o[to + k] = dot_product(&t[a..a + n], &t[..n]) as i64;
    }
}

// x, or q less, so that two halves hold it; 2147516416 more. The remainder nearest to zero would reach 2147483647, which is 65536 * 32768 - 1 and has no such halves.
fn lifted(q: u32, x: u32) -> u32
    requires { x < q }
    ensures { result ≡ lift q x }
{
    if x < 2147450880 {
        x + 2147516416
    } else {
        ((x as u64) + 2147516416 - (q as u64)) as u32
    }
}

// The halves of a lifted number.
fn high_half(y: u32) -> i16
    ensures { result ≡ upper y }
{
    (((y / 65536) as i32) - 32768) as i16
}

fn low_half(y: u32) -> i16
    ensures { result ≡ lower y }
{
    (((y % 65536) as i32) - 32768) as i16
}

// The halves of the window of 2 n numbers in front of d, behind the n secrets of t.
fn lay_halves(q: u32, d: &[u32], t: &mut [i16], n: usize)
    requires ready { Ready q n d.now t.old }
    requires n_in_bounds { (2 * n ≤ length d.now) × (5 * n ≤ length t.old) }
    ensures { Halved q n d.now t.old t.new }
{
    for i in 0..2 * n {
        let y = lifted(q, d[i]);
        t[n + i] = high_half(y);
        t[3 * n + i] = low_half(y);
    }
}

fn together(high: i64, low: i64) -> i64
    requires { (nat_abs high ≤ 2 ^ 31) × (nat_abs low ≤ 2 ^ 31) }
    ensures { result ≡ high *ℤ pos 65536 +ℤ low }
{
    high * 65536 + low
}

// The n sums of high halves in front of o, put together with those of low halves behind them.
fn put_together(o: &mut [i64], n: usize)
    requires { (n + n ≤ length o.old) × ((k : ℕ) → k < n + n → nat_abs (ints o.old k) ≤ 2 ^ 31) }
    ensures { Stored (pos 0) o.old 0 n (λ (k : ℕ). ints o.old k *ℤ pos 65536 +ℤ ints o.old (n + k)) o.new }
{
    for k in 0..n {
        o[k] = together(o[k], o[n + k]);
    }
}

// The sums by the plain rule.
fn leaf(q: u32, d: &[u32], t: &mut [i16], o: &mut [i64], n: usize)
    requires ready { Ready q n d.now t.old }
    requires n_in_bounds { (2 * n ≤ length d.now) × (5 * n ≤ length t.old) × (n + n ≤ length o.old) }
    ensures { Made q n (nums d.now) (ints t.old) o.new }
{
    let three = 3 * n;
    lay_halves(q, d, t, n);
    dots(t, n, o, 0, n);
    dots(t, three, o, n, n);
    put_together(o, n);
}

// x - y, reduced. The test is a factor 0 or 1, of which the compiler makes fewer instructions than of a branch: 21 for eight numbers in place of 31.
fn minus(q: u32, x: u32, y: u32) -> u32
    requires { (x < q) × (y < q) }
    ensures { result ≡ residue q (pos x -ℤ pos y) }
{
    ((x as u64) + (q as u64) * ((x < y) as u64) - (y as u64)) as u32
}

// The n numbers at x less those at y, behind them all.
fn subtract(q: u32, d: &mut [u32], x: usize, y: usize, to: usize, n: usize)
    requires n_bound { (x + n ≤ to) × (y + n ≤ to) × (to + n ≤ length d.old) }
    requires by_index { (i : ℕ) → i < to → get_or d.old i 0 < q }
    ensures { Stored 0 d.old to n (λ (k : ℕ). residue q (nums d.old (x + k) -ℤ nums d.old (y + k))) d.new }
{
    for i in 0..n {
        d[to + i] = minus(q, d[x + i], d[y + i]);
    }
}

// The n entries at x, added to those at `to`.
fn add<T: Copy + Add<Output = T>>(w: &mut [T], to: usize, x: usize, n: usize)
    requires n_in_bounds { (to + n ≤ x) × (x + n ≤ length w.old) }
    requires by_index { (z : T) (k : ℕ) → k < n → T.can_add (get_or w.old (to + k) z) (get_or w.old (x + k) z) }
    ensures { Summed T.add_gives w.old to x n w.new }
{
    for k in 0..n {
        w[to + k] = w[to + k] + w[x + k];
    }
}

fn join(o: &mut [i64], m: usize)
    requires { (m + m + m ≤ length o.old) × ((k : ℕ) → k < m + m + m → nat_abs (ints o.old k) ≤ 2 ^ 60) }
    ensures { Joined m o.old o.new }
{
    let two = m + m;
    add(o, 0, two, m);
    add(o, m, two, m);
}

// Half of a length that is even and above 64, else 0. A block of 64 products is what the compiler makes full instructions of: down to 128 the product takes 1.04
// times the instructions, down to 256 1.20 times and down to 32 2.2 times.
fn half(n: usize) -> usize
    ensures { 0 < result → (n ≡ result + result) × (32 < result) }
{
    if n <= 64 {
        return 0;
    }
    if n % 2 == 1 {
        return 0;
    }
    n / 2
}

// The n sums of the window of 2 n numbers in front of d and the n secrets in front of t, in front of o. Each of the three products of half the length is lent what
// lies behind its own numbers, and so the middle one comes last.
fn windows(q: u32, d: &mut [u32], t: &mut [i16], o: &mut [i64], n: usize)
    requires ready { Ready q n d.old t.old }
    requires n_in_bounds { (4 * n ≤ length d.old) × (5 * n ≤ length t.old) × (n + n ≤ length o.old) }
    ensures { Made q n (nums d.old) (ints t.old) o.new }
{
    let m = half(n);
    if m == 0 {
        leaf(q, d, t, o, n);
        return;
    }
    let two = m + m;
    let four = two + two;
    subtract(q, d, 0, m, four, two);
    t.copy_within(..m, two);
    windows(q, &mut d[four..], &mut t[two..], o, m);
    subtract(q, d, two, m, four, two);
    add(t, 0, m, m);
    windows(q, &mut d[four..], &mut t[m..], &mut o[m..], m);
    windows(q, &mut d[m..], t, &mut o[two..], m);
    join(o, m);
}

// -x, reduced.
fn negative(q: u32, x: u32) -> u32
    requires { x < q }
    ensures { result ≡ residue q (neg_ℤ (pos x)) }
{
    numbers::negate64(x as i64, q as u64) as u32
}

fn lay_negatives(q: u32, a: &[u32], d: &mut [u32])
    requires { Below q a.now × (length a.now ≤ length d.old) }
    ensures { Stored 0 d.old 0 (length a.now) (λ (i : ℕ). residue q (neg_ℤ (nums a.now i))) d.new }
{
    for (i, x) in a.iter().enumerate() {
        d[i] = negative(q, *x);
    }
}

// [-a | a] without its first entry, in front of d.
fn lay_window(q: u32, a: &[u32], d: &mut [u32])
    requires below { Below q a.now × Below q d.old }
    requires a_nonzero { (0 < length a.now) × (length a.now + length a.now ≤ length d.old) }
    ensures { Windowed q (length a.now) a.now d.new }
{
    let n = a.len() - 1;
    lay_negatives(q, &a[1..], d);
    d[n..n + a.len()].copy_from_slice(a);
}

// The secret, its last entry first, in front of t.
fn reverse(s: &[i32], t: &mut [i16])
    requires { (length s.now ≤ length t.old) × Within 51 s.now }
    ensures { Stored (pos 0) t.old 0 (length s.now) (λ (j : ℕ). ints s.now (length s.now - (j + 1))) t.new }
{
    for j in 0..s.len() {
        t[j] = s[s.len() - 1 - j] as i16;
    }
}

// A sum with the noise, reduced to 0 .. q - 1.
fn reduce(x: i64, e: i32) -> u32
    requires { nat_abs x ≤ 2 ^ 60 }
    ensures { result ≡ residue bcns.q (x +ℤ e) }
{
    numbers::residue_folded(x + (e as i64))
}

fn entries(o: &[i64], e: &[i32], out: &mut [u32])
    requires out_in_bounds { (length out.old ≤ length o.now) × (length e.now ≡ length out.old) }
    requires by_index { (k : ℕ) → k < length out.old → nat_abs (ints o.now k) ≤ 2 ^ 60 }
    ensures { out.new ≡ tab (length out.old) (λ (k : ℕ). residue bcns.q (ints o.now k +ℤ ints e.now k)) }
{
    for k in 0..out.len() {
        out[k] = reduce(o[k], e[k]);
    }
}

// as + e, with room lent for the window, the secrets and the sums: as literals these arrays would stand in every goal.
fn mix_lent(
    a: &[u32],
    s: &[i32],
    e: &[i32],
    d: &mut [u32],
    t: &mut [i16],
    o: &mut [i64],
    out: &mut [u32],
)
    requires fit { Fit bcns.q (length out.old) a.now s.now × (length e.now ≡ length out.old) × Below bcns.q d.old }
    requires d_len { (length d.old ≡ 4096) × (length t.old ≡ 5120) × (length o.old ≡ 2048) }
    ensures { out.new ≡ mixed bcns.q (length out.old) a.now s.now e.now }
{
    lay_window(Bcns::Q, a, d);
    reverse(s, t);
    windows(Bcns::Q, d, t, o, out.len());
    entries(o, e, out);
}

// as + e. Its arrays take 42 KiB.
pub fn mix(a: &[u32], s: &[i32], e: &[i32], out: &mut [u32])
    requires fit { Fit bcns.q (length out.old) a.now s.now }
    requires e_len { length e.now ≡ length out.old }
    ensures { out.new ≡ mixed bcns.q (length out.old) a.now s.now e.now }
{
    let mut d = [0u32; 4096];
    let mut t = [0i16; 5120];
    let mut o = [0i64; 2048];
    mix_lent(a, s, e, &mut d, &mut t, &mut o, out);
}

// us: no noise is added.
pub fn multiply(u: &[u32], s: &[i32], out: &mut [u32])
    requires { Fit bcns.q (length out.old) u.now s.now }
    ensures { out.new ≡ bare bcns.q (length out.old) u.now s.now }
{
    let n = out.len();
    let e = [0i32; 1024];
    mix(u, s, &e[..n], out);
}
