// What a state says: which scheme, whether a call has begun, and whether a part or an end has its turn; and its words, two in each number.
ghost use Rattle.std.specs.Prelude.{◌≡◌, ◌++◌, ◌+◌, ◌*◌, ◌%◌, ◌<◌, ◌≤◌, length, replicate};
ghost use Rattle.schemes.specs.Schemes.{fixed_of};
ghost use Rattle.matrix.specs.Words.{words_of, reduced};
ghost use Rattle.parts.specs.Parts.{wrap, pairs};
ghost use Rattle.rows_state.specs.State.{frodo_of_lem, long, named, taken, saved_of, sums_of, laid, secret_words_lem, fresh, ◌and◌, all_below, saved_in, begun, fits_in_lem, complete, fills};
ghost use Rattle.rows_state.specs.Inside.{keeping, Sized};

use crate::Call;
use schemes::{Family, Fixed, Scheme};

// The scheme that a number names, if it is one of Frodo's.
pub fn frodo_of(no: u32) -> Option<Scheme>
    ensures { result ≡ frodo_of_lem no }
{
    let known = Scheme::try_from(no).ok()?;
    match known.family() {
        Family::Frodo => Some(known),
        _ => None,
    }
}

// The scheme that a state names.
pub fn named(state: &[u32]) -> Option<Scheme>
    ensures { result ≡ named state.now }
{
    if state.len() < 2 {
        return None;
    }
    frodo_of(state[1])
}

fn all_below(b: u32, xs: &[u32]) -> bool
    ensures { result ≡ all_below b xs.now }
{
    lists::first_over(b, xs) == xs.len()
}

// The seed's bytes, then zeros.
fn seed_kept(kept: &[u32]) -> bool
    requires { length kept.now ≡ 64 }
    ensures { result ≡ saved_in Call.Offer 0 kept.now }
{
    if !all_below(256, &kept[..16]) {
        return false;
    }
    all_below(1, &kept[16..])
}

fn kept_in(call: Call, q: u32, kept: &[u32]) -> bool
    requires { length kept.now ≡ 64 }
    ensures { result ≡ saved_in call q kept.now }
{
    match call {
        Call::Offer => seed_kept(kept),
        Call::Reply => all_below(q, kept),
    }
}

// The call has begun. Only the first 67 numbers have a range. The rest are pairs of words, and the sums wrap, so that any number may stand there. To hold the words
// of the secret to the largest noise, and those of the rows to q, each part would read 12 n numbers more, which without a branch takes 2.0 to 2.7 times as long as a
// part of a whole row takes now (1.3 to 1.7 times with vector instructions by hand; Intel Xeon, family 6, model 207); and a state that was changed within those ranges
// would still pass. A test at the end alone would be another rule than 02's.
fn has_begun(call: Call, f: Fixed, state: &[u32]) -> bool
    requires { f.n ≤ 864 }
    ensures { result ≡ begun call f state.now }
{
    if state.len() != 16 * f.n + 67 {
        return false;
    }
    if state[0] != call.tag() {
        return false;
    }
    if f.n * f.n < state[2] as usize {
        return false;
    }
    kept_in(call, f.q, &state[3..67])
}

// m more numbers end inside the row, and inside A.
fn fits_in(n: usize, at: usize, m: usize) -> bool
    requires { (0 < n) × (n ≤ 864) × (at ≤ n * n) }
    ensures { result ≡ fits_in_lem n at m }
{
    let left = n - at % n;
    if left < m {
        return false;
    }
    at + m <= n * n
}

// A part of m numbers has its turn.
pub fn may_take(call: Call, f: Fixed, state: &[u32], m: usize) -> bool
    requires { (0 < f.n) × (f.n ≤ 864) }
    ensures { result ≡ begun call f state.now and fits_in_lem f.n (taken state.now) m }
{
    if !has_begun(call, f, state) {
        return false;
    }
    fits_in(f.n, state[2] as usize, m)
}

// The end has its turn.
pub fn is_complete(call: Call, f: Fixed, state: &[u32]) -> bool
    requires { f.n ≤ 864 }
    ensures { result ≡ complete call f state.now }
{
    if !has_begun(call, f, state) {
        return false;
    }
    state[2] as usize == f.n * f.n
}

// m more numbers end a block of sixteen rows.
pub fn fills(n: usize, at: usize, m: usize) -> bool
    requires { (0 < n) × (n ≤ 864) × (at + m ≤ n * n) }
    ensures { result ≡ fills n at m }
{
    if m < 1 {
        return false;
    }
    (at + m) % (16 * n) == 0
}

// The words of secret and noise into zeros; no row is held back yet.
fn lay_pairs(n: usize, secret: &[u16], noise: &[u16], out: &mut [u32])
    requires { (n ≤ 864) × (length secret.now ≡ 8 * n) × (length noise.now ≡ 8 * n) × (out.old ≡ replicate (16 * n) 0) }
    ensures { out.new ≡ pairs secret.now ++ (pairs noise.now ++ replicate (8 * n) 0) }
{
    let a = 4 * n;
    let e = a + 4 * n;
    parts::pair(secret, &mut out[..a]);
    parts::pair(noise, &mut out[a..e]);
}

// The words of the secret: Offer's in columns, Reply's as they lie.
fn secret_words(call: Call, n: usize, s: &[i32], out: &mut [u16])
    requires { (0 < n) × (length s.now ≡ 8 * n) × (length out.old ≡ 8 * n) }
    ensures { out.new ≡ secret_words_lem call n s.now }
{
    match call {
        Call::Offer => matrix::columns(n, s, out),
        Call::Reply => matrix::words(s, out),
    }
}

// The words of the secret and of the noise go into zeros, which have room for both.
fn words_on(
    call: Call,
    n: usize,
    s: &[i32],
    e: &[i32],
    secret: &mut [u16],
    noise: &mut [u16],
    out: &mut [u32],
)
    requires n_nonzero { (0 < n) × (n ≤ 864) × (length s.now ≡ 8 * n) × (length e.now ≡ 8 * n) × (out.old ≡ replicate (16 * n) 0) }
    requires secret_len { (length secret.old ≡ 8 * n) × (length noise.old ≡ 8 * n) }
    ensures { out.new ≡ pairs (secret_words_lem call n s.now) ++ (pairs (words_of wrap e.now) ++ replicate (8 * n) 0) }
{
    secret_words(call, n, s, secret);
    matrix::words(e, noise);
    lay_pairs(n, secret, noise, out);
}

fn lay_words(call: Call, n: usize, s: &[i32], e: &[i32], out: &mut [u32])
    requires { (0 < n) × (n ≤ 864) × (length s.now ≡ 8 * n) × (length e.now ≡ 8 * n) × (out.old ≡ replicate (16 * n) 0) }
    ensures { out.new ≡ pairs (secret_words_lem call n s.now) ++ (pairs (words_of wrap e.now) ++ replicate (8 * n) 0) }
{
    let mut secret = [0u16; 6912];
    let mut noise = [0u16; 6912];
    let k = 8 * n;
    words_on(call, n, s, e, &mut secret[..k], &mut noise[..k], out);
}

// The state of a call that begins. What is kept for its end is there, and all else is zeros.
pub fn lay_state(call: Call, scheme: Scheme, n: usize, s: &[i32], e: &[i32], state: &mut [u32])
    requires sized { Sized n state.old × (n ≡ (fixed_of scheme).n) × (state.old ≡ keeping n (saved_of state.old)) }
    requires s_len { (length s.now ≡ 8 * n) × (length e.now ≡ 8 * n) }
    ensures { state.new ≡ laid (fresh call scheme (saved_of state.old) s.now e.now) }
{
    state[0] = call.tag();
    state[1] = scheme.number();
    lay_words(call, n, s, e, &mut state[67..]);
}

// The remainders of the sums, with room for their words. They are made without a division, as in `matrix`: a sum holds more of the secret than what is sent of it.
fn reduce_on(q: u32, n: usize, state: &[u32], sums: &mut [u16], out: &mut [u32])
    requires { (0 < q) × (q ≤ 32768) × (65536 % q ≡ 0) × (n ≤ 864) × (length state.now ≡ long n) × (length sums.old ≡ 8 * n) × (length out.old ≡ 8 * n) }
    ensures { out.new ≡ reduced q (sums_of n state.now) }
{
    let a = 67 + 4 * n;
    let e = a + 4 * n;
    parts::unpair(&state[a..e], sums);
    matrix::reduce(q, sums, out);
}

pub fn reduce(q: u32, n: usize, state: &[u32], out: &mut [u32])
    requires { (0 < q) × (q ≤ 32768) × (65536 % q ≡ 0) × (n ≤ 864) × (length state.now ≡ long n) × (length out.old ≡ 8 * n) }
    ensures { out.new ≡ reduced q (sums_of n state.now) }
{
    let mut sums = [0u16; 6912];
    let k = 8 * n;
    reduce_on(q, n, state, &mut sums[..k], out);
}
