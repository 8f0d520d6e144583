// Frodo's running sums, where A comes in parts: 02, request e. The lent state holds words of 16 bits, two in each number: the secret, the sums, and the rows
// of A that are held back. Here they are put together, from any word on, and taken apart again for crate `matrix`, whose products serve both ways. The laws,
// that the cut makes no difference, stand in `proofs/`, once over n, the modulus and the number of rows.

#![tactic(auto)]

ghost use Rattle.std.specs.Prelude.{◌≡◌, ◌++◌, ◌+◌, ◌*◌, ◌%◌, ◌<◌, ◌≤◌, ℕ, List, length, get_or, take, drop, set};
ghost use Rattle.lists.specs.Ranges.{Below};
ghost use Rattle.matrix.specs.Steps.{part_term, columns_from};
ghost use Rattle.matrix.specs.Words.{gained, right_term};
ghost use Rattle.parts.specs.Parts.{wrap, words, pairs};

// Both words of each number. Where the lower word lies first the compiler makes one copy of it.
pub fn unpair(xs: &[u32], out: &mut [u16])
    requires { length out.old ≡ 2 * length xs.now }
    ensures { out.new ≡ words xs.now }
{
    for (i, x) in xs.iter().enumerate() {
        out[2 * i] = (*x % 65536) as u16;
        out[2 * i + 1] = (*x / 65536) as u16;
    }
}

// The way back. `at` gives a word by its place.
fn pair_by<F: Fn(usize) -> u32>(at: F, out: &mut [u32])
    requires pre { (k : ℕ) → k < 2 * length out.old → F.pre at k }
    requires post { (k w : ℕ) → k < 2 * length out.old → F.post at k w → w < 65536 }
    ensures { (ws : List ℕ) → length ws ≡ 2 * length out.old → ((k w : ℕ) → k < 2 * length out.old → F.post at k w → w ≡ get_or ws k 0) → out.new ≡ pairs ws }
{
    for (i, x) in out.iter_mut().enumerate() {
        *x = at(2 * i) + 65536 * at(2 * i + 1);
    }
}

// The way back, of words.
pub fn pair(ws: &[u16], out: &mut [u32])
    requires { length ws.now ≡ 2 * length out.old }
    ensures { out.new ≡ pairs ws.now }
{
    pair_by(|k| ws[k] as u32, out);
}

// Word k: the lower half of number k / 2 where k is even, and its upper half where k is odd.
fn put_word(k: usize, w: u32, out: &mut [u32])
    requires { (k < 2 * length out.old) × (w < 65536) }
    ensures { words out.new ≡ set (words out.old) k w }
{
    let i = k / 2;
    let x = out[i];
    if k % 2 == 0 {
        out[i] = x / 65536 * 65536 + w;
    } else {
        out[i] = x % 65536 + 65536 * w;
    }
}

// Numbers of 16 bits as words, from word `at` on, one at a time.
fn put_each(at: usize, ws: &[u32], out: &mut [u32])
    requires { (at + length ws.now ≤ 2 * length out.old) × Below 65536 ws.now }
    ensures { out.new ≡ pairs (take at (words out.old) ++ (ws.now ++ drop (at + length ws.now) (words out.old))) }
{
    for (k, w) in ws.iter().enumerate() {
        put_word(at + k, *w, out);
    }
}

// The way back, of numbers of 16 bits.
fn pair_numbers(xs: &[u32], out: &mut [u32])
    requires { (length xs.now ≡ 2 * length out.old) × Below 65536 xs.now }
    ensures { out.new ≡ pairs xs.now }
{
    pair_by(|k| xs[k], out);
}

// Numbers of 16 bits as words, from word `at` on. Where they start and end on whole numbers, as whole rows do, two go at a time.
pub fn put_words(at: usize, ws: &[u32], out: &mut [u32])
    requires { (at + length ws.now ≤ 2 * length out.old) × Below 65536 ws.now }
    ensures { out.new ≡ pairs (take at (words out.old) ++ (ws.now ++ drop (at + length ws.now) (words out.old))) }
{
    if at % 2 == 0 && ws.len() % 2 == 0 {
        let a = at / 2;
        let m = ws.len() / 2;
        pair_numbers(ws, &mut out[a..a + m]);
    } else {
        put_each(at, ws, out);
    }
}

// Offer: r rows of A, held as words, two in a number, into their sums. One row at a time is taken apart, in a line that serves for all.
pub fn add_rows(
    n: usize,
    h: usize,
    r: usize,
    x: &[u32],
    cols: &[u16],
    line: &mut [u16],
    sums: &mut [u16],
)
    requires { (n ≡ 2 * h) × (length x.now ≡ r * h) × (length cols.now ≡ 8 * n) × (length line.old ≡ n) × (length sums.old ≡ 8 * r) }
    ensures { sums.new ≡ gained wrap n (right_term n (words x.now) cols.now) sums.old }
{
    for i in 0..r {
        let a = i * h;
        let b = i * 8;
        unpair(&x[a..a + h], line);
        matrix::add_right(n, 1, line, cols, &mut sums[b..b + 8]);
    }
}

// Reply: 2c words of each row of S', from word 2r on, which 2c rows of A meet; a row has 2h words.
pub fn some_columns(h: usize, r: usize, c: usize, secret: &[u32], out: &mut [u16])
    requires { (0 < c) × (r + c ≤ h) × (length secret.now ≡ 8 * h) × (length out.old ≡ 8 * (2 * c)) }
    ensures { out.new ≡ columns_from (2 * h) (2 * r) (2 * c) (words secret.now) }
{
    let w = 2 * c;
    for k in 0..8 {
        let a = k * h + r;
        let b = k * w;
        unpair(&secret[a..a + c], &mut out[b..b + w]);
    }
}

// Reply: w rows of A, held as words, two in a number, into all sums, with the w columns of S' that they meet. Four at a time are taken apart, in a block that
// serves for all: for four the product is made.
pub fn add_left(
    n: usize,
    h: usize,
    w: usize,
    s: &[u16],
    x: &[u32],
    block: &mut [u16],
    sums: &mut [u16],
)
    requires { (0 < n) × (n ≡ 2 * h) × (w % 4 ≡ 0) × (length s.now ≡ 8 * w) × (length x.now ≡ w * h) × (length block.old ≡ 4 * n) × (length sums.old ≡ 8 * n) }
    ensures { sums.new ≡ gained wrap w (part_term w n 0 s.now (words x.now)) sums.old }
{
    let l = 4 * h;
    for t in (0..w).step_by(4) {
        let a = t * h;
        unpair(&x[a..a + l], block);
        matrix::add_left(w, n, t, 4, s, block, sums);
    }
}
