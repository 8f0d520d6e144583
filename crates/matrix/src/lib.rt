// Frodo's products modulo q of matrices of public numbers with matrices of secrets, which are small and signed; all lie row after row: 01, "The
// calls". The laws, and that the two ends differ by S'E + E'' - E'S, stand in `proofs/`, once over n and q.
//
// All work is in words of 16 bits, eight to a vector, which wrap at 65,536: q divides it, so a remainder modulo 65,536 has the one modulo q in it.
// Every sum starts as the noise, gains n products and is reduced once. XS goes row by row through X, with the columns of S laid side by side; SY goes
// through Y four rows at a time, into 8 rows of sums. A row, or a block of four, is laid down as words and tested in one pass, and multiplied while it is
// near: so A, up to 3 MB, is read once.

#![tactic(auto)]

ghost use Rattle.std.specs.Prelude.{◌≡◌, ℕ, ◌+◌, ◌*◌, ◌/◌, ◌%◌, ◌<◌, ◌≤◌, length, get_or, pos};
ghost use Rattle.numbers.specs.Sum.{sum_ℕ};
ghost use Rattle.numbers.specs.Residue.{residue};
ghost use Rattle.lists.specs.First.{first_over_lem};
ghost use Rattle.lists.specs.Entries.{tab, ints};
ghost use Rattle.lists.specs.Ranges.{Below};
ghost use Rattle.matrix.specs.Matrix.{right_mixed, left_mixed, bare};
ghost use Rattle.matrix.specs.Steps.{Shape, Fit, turned, dot_term, block_term, part_term, block_gained};
ghost use Rattle.matrix.specs.Words.{words_of, gained, reduced, columns_of, right_term, left_term};

// One product more. A sum of words is below 2^32, so nothing is lost before it wraps; the compiler makes one multiplication of 16 bits of it.
fn add_product(sum: u16, x: u16, w: u16) -> u16
    ensures { result ≡ (sum + x * w) % 65536 }
{
    ((sum as u32 + x as u32 * w as u32) % 65536) as u16
}

// A secret or a noise value as a word.
fn word(z: i32) -> u16
    ensures { result ≡ residue 65536 z }
{
    numbers::residue32(z, 65536) as u16
}

pub fn words(zs: &[i32], out: &mut [u16])
    requires { length zs.now ≡ length out.old }
    ensures { out.new ≡ words_of 65536 zs.now }
{
    for (k, z) in zs.iter().enumerate() {
        out[k] = word(*z);
    }
}

// A number in 16 bits, where it fits. What does not is cut to the bounds of the instruction that packs eight numbers at a time: with them the compiler
// takes it, and without them it shuffles.
fn packed(x: u32) -> u16
    ensures { x < 32768 → result ≡ x }
{
    word(x.cast_signed().clamp(-32768, 32767))
}

// Numbers in 16 bits each, where they fit. The answer has every bit that some number has, so no number is over it.
fn narrow_bits(xs: &[u32], out: &mut [u16]) -> u32
    requires { length xs.now ≡ length out.old }
    ensures by_index { (k : ℕ) → k < length xs.now → get_or xs.now k 0 ≤ result }
    ensures out_value { Below 32768 xs.now → out.new ≡ xs.now }
{
    let mut bits: u32 = 0;
    for (k, x) in xs.iter().enumerate() {
        bits |= *x;
        out[k] = packed(*x);
    }
    bits
}

// Numbers in 16 bits each, with the test. The answer is the place of the first number that is q or more, or how many there are. Where q is a power of two,
// as in Frodo, numbers are all below it where their bits are, and so one pass does both. It is no Option, here and below: the public clauses ask for this number,
// `first_over_lem`, and `lists::first_over` gives it.
fn narrow_below(q: u32, xs: &[u32], out: &mut [u16]) -> usize
    requires { (0 < q) × (q ≤ 32768) × (length xs.now ≡ length out.old) }
    ensures value { result ≡ first_over_lem q xs.now }
    ensures out_value { Below q xs.now → out.new ≡ xs.now }
{
    if narrow_bits(xs, out) < q {
        return xs.len();
    }
    lists::first_over(q, xs)
}

// Sums with others.
fn add_words(ws: &[u16], sums: &mut [u16])
    requires { length ws.now ≡ length sums.old }
    ensures { sums.new ≡ tab (length sums.old) (λ k. (get_or sums.old k 0 + get_or ws.now k 0) % 65536) }
{
    for (k, w) in ws.iter().enumerate() {
        sums[k] = add_product(sums[k], *w, 1);
    }
}

// The remainder of a word, where q divides 65536 and c is 65536 / q: u c keeps, of 16 bits, the remainder c times. Without a division it runs many words at a
// time.
fn remainder(u: u16, c: u16, q: u16) -> u16
    requires { (0 < q) × (65536 % q ≡ 0) × (c ≡ 65536 / q % 65536) }
    ensures { result ≡ u % q }
{
    let x = (u as u32) * (c as u32) % 65536;
    (x * (q as u32) / 65536) as u16
}

// The remainders of the sums in 0 .. q - 1.
pub fn reduce(q: u32, sums: &[u16], out: &mut [u32])
    requires { (0 < q) × (q ≤ 32768) × (65536 % q ≡ 0) × (length out.old ≡ length sums.now) }
    ensures { out.new ≡ reduced q sums.now }
{
    let c = (65536 / q % 65536) as u16;
    let w = q as u16;
    for (k, sum) in sums.iter().enumerate() {
        out[k] = remainder(*sum, c, w) as u32;
    }
}

// The 8 columns of a matrix, one after the other. `at` gives a word by its place in the matrix.
fn lay<F: Fn(usize) -> u16>(n: usize, at: F, cols: &mut [u16])
    requires cols_len { length cols.old ≡ 8 * n }
    requires pre { (k : ℕ) → k < 8 * n → F.pre at k }
    ensures { (f : ℕ → ℕ) → ((k r : ℕ) → k < 8 * n → F.post at k r → r ≡ f k) → cols.new ≡ tab (8 * n) (λ k. f (k % n * 8 + k / n)) }
{
    for j in 0..8 {
        for t in 0..n {
            cols[j * n + t] = at(t * 8 + j);
        }
    }
}

// The columns of S, one after the other.
pub fn columns(n: usize, s: &[i32], cols: &mut [u16])
    requires { (0 < n) × (length s.now ≡ 8 * n) × (length cols.old ≡ 8 * n) }
    ensures { cols.new ≡ columns_of 65536 n s.now }
{
    lay(n, |k| word(s[k]), cols);
}

// The number x with what stands at t in each of the 8 columns. The loop is short and of a fixed length, so that the sums stay in registers.
fn add_products(x: u16, n: usize, t: usize, cols: &[u16], sums: &mut [u16])
    requires { (t < n) × (length cols.now ≡ 8 * n) × (length sums.old ≡ 8) }
    ensures { sums.new ≡ tab 8 (λ j. (get_or sums.old j 0 + x * get_or cols.now (j * n + t) 0) % 65536) }
{
    for j in 0..8 {
        sums[j] = add_product(sums[j], x, cols[j * n + t]);
    }
}

// A row with each of the 8 columns: one load of the row serves 8 dot products.
fn dots_on(n: usize, row: &[u16], cols: &[u16], sums: &mut [u16])
    requires { (length row.now ≡ n) × (length cols.now ≡ 8 * n) × (length sums.old ≡ 8) }
    ensures { sums.new ≡ gained 65536 n (dot_term n row.now cols.now) sums.old }
{
    for t in 0..n {
        add_products(row[t], n, t, cols, sums);
    }
}

// `dots_on`, where the compiler can read for Frodo's n how far apart the columns lie, and so reckons no addresses.
fn dots_by(n: usize, row: &[u16], cols: &[u16], sums: &mut [u16])
    requires { (length row.now ≡ n) × (length cols.now ≡ 8 * n) × (length sums.old ≡ 8) }
    ensures { sums.new ≡ gained 65536 n (dot_term n row.now cols.now) sums.old }
{
    match n {
        352 => dots_on(352, row, cols, sums),
        592 => dots_on(592, row, cols, sums),
        752 => dots_on(752, row, cols, sums),
        864 => dots_on(864, row, cols, sums),
        _ => dots_on(n, row, cols, sums),
    }
}

// `dots_by` on sums of its own, which are added at the end: the compiler keeps those in registers, where lent ones, which might lie in the row, would go to
// memory each time.
fn add_dots(n: usize, row: &[u16], cols: &[u16], sums: &mut [u16])
    requires { (length row.now ≡ n) × (length cols.now ≡ 8 * n) × (length sums.old ≡ 8) }
    ensures { sums.new ≡ gained 65536 n (dot_term n row.now cols.now) sums.old }
{
    let mut own: [u16; 8] = [0; 8];
    dots_by(n, row, cols, &mut own);
    add_words(&own, sums);
}

// The r rows of X, as words, with the columns.
pub fn add_right(n: usize, r: usize, x: &[u16], cols: &[u16], sums: &mut [u16])
    requires { (length x.now ≡ r * n) × (length cols.now ≡ 8 * n) × (length sums.old ≡ 8 * r) }
    ensures { sums.new ≡ gained 65536 n (right_term n x.now cols.now) sums.old }
{
    for i in 0..r {
        let a = i * n;
        let b = i * 8;
        add_dots(n, &x[a..a + n], cols, &mut sums[b..b + 8]);
    }
}

// A row of numbers with the columns, into its 8 sums, with room for the row as words. The answer is the place of the first number that is q or more, or n.
fn right_row(
    q: u32,
    n: usize,
    row: &[u32],
    cols: &[u16],
    line: &mut [u16],
    sums: &mut [u16],
) -> usize
    requires { (0 < q) × (q ≤ 32768) × (length row.now ≡ n) × (length cols.now ≡ 8 * n) × (length line.old ≡ n) × (length sums.old ≡ 8) }
    ensures value { result ≡ first_over_lem q row.now }
    ensures sums_value { Below q row.now → sums.new ≡ gained 65536 n (dot_term n row.now cols.now) sums.old }
{
    let at = narrow_below(q, row, line);
    add_dots(n, line, cols, sums);
    at
}

// `add_right` of numbers, up to the first row that has one which is q or more. The answer is its place, or X's length.
fn right_rows(
    q: u32,
    n: usize,
    r: usize,
    x: &[u32],
    cols: &[u16],
    line: &mut [u16],
    sums: &mut [u16],
) -> usize
    requires { (0 < q) × (q ≤ 32768) × (length x.now ≡ r * n) × (length cols.now ≡ 8 * n) × (length line.old ≡ n) × (length sums.old ≡ 8 * r) }
    ensures value { result ≡ first_over_lem q x.now }
    ensures sums_value { Below q x.now → sums.new ≡ gained 65536 n (right_term n x.now cols.now) sums.old }
{
    for i in 0..r {
        let a = i * n;
        let b = i * 8;
        let at = right_row(q, n, &x[a..a + n], cols, line, &mut sums[b..b + 8]);
        if at < n {
            return a + at;
        }
    }
    x.len()
}

// XS + E, with room for the columns, a row and the sums.
fn right_on(
    q: u32,
    n: usize,
    r: usize,
    x: &[u32],
    s: &[i32],
    e: &[i32],
    cols: &mut [u16],
    line: &mut [u16],
    sums: &mut [u16],
    out: &mut [u32],
) -> usize
    requires shape { Shape q n r x.now s.now × (length e.now ≡ 8 * r) × (length out.old ≡ 8 * r) }
    requires cols_len { (length cols.old ≡ 8 * n) × (length line.old ≡ n) × (length sums.old ≡ 8 * r) }
    ensures value { result ≡ first_over_lem q x.now }
    ensures out_value { Below q x.now → out.new ≡ right_mixed q r n 8 x.now s.now e.now }
{
    columns(n, s, cols);
    words(e, sums);
    let at = right_rows(q, n, r, x, cols, line, sums);
    reduce(q, sums, out);
    at
}

// XS + E, where X has n rows and n columns: AS + E. The answer is the place of the first number of X that is q or more, or X's length where none is. Here as
// below arrays have some words that nobody needs: with them those that matter start where 16 bytes do, and no vector lies in two lines of the cache, which is 7 to
// 10 % of Frodo's products on an AMD EPYC. Which arrays these are was found by looking; no proof rests on it, and another compiler may lay them otherwise.
pub fn mix_right(q: u32, n: usize, x: &[u32], s: &[i32], e: &[i32], out: &mut [u32]) -> usize
    requires { (Shape q n n x.now s.now × (length out.old ≡ 8 * n)) × (length e.now ≡ 8 * n) }
    ensures { (result ≡ first_over_lem q x.now) × (Below q x.now → out.new ≡ right_mixed q n n 8 x.now s.now e.now) }
{
    let mut cols: [u16; 6920] = [0; 6920];
    let mut line: [u16; 864] = [0; 864];
    let mut sums: [u16; 6916] = [0; 6916];
    let k = 8 * n;
    right_on(
        q,
        n,
        n,
        x,
        s,
        e,
        &mut cols[..k],
        &mut line[..n],
        &mut sums[..k],
        out,
    )
}

// The number at column j of the row that starts at a. Read through the row, each row of a block has a place of its own, and all share one index.
fn number_at(y: &[u16], a: usize, c: usize, j: usize) -> u16
    requires { (a + c ≤ length y.now) × (j < c) }
    ensures { result ≡ get_or y.now (a + j) 0 }
{
    let row = &y[a..a + c];
    row[j]
}

// The sum at column j: each row of the block with its word.
fn weigh(start: u16, w: &[u16], y: &[u16], c: usize, j: usize) -> u16
    requires { (length y.now ≡ length w.now * c) × (j < c) }
    ensures { result ≡ (start + sum_ℕ (length w.now) (block_term c w.now y.now j)) % 65536 }
{
    let mut sum = start;
    for (u, x) in w.iter().enumerate() {
        sum = add_product(sum, number_at(y, u * c, c, j), *x);
    }
    sum
}

// A block of rows into one row of sums.
fn add_rows(w: &[u16], y: &[u16], sums: &mut [u16])
    requires { length y.now ≡ length w.now * length sums.old }
    ensures { sums.new ≡ block_gained w.now y.now sums.old }
{
    let c = sums.len();
    for (j, sum) in sums.iter_mut().enumerate() {
        *sum = weigh(*sum, w, y, c, j);
    }
}

// `add_rows`, where four rows, as nearly all blocks are, go in one pass with four products for each sum that is loaded and stored: here the compiler can
// read that there are four.
fn add_block(w: &[u16], y: &[u16], sums: &mut [u16])
    requires { length y.now ≡ length w.now * length sums.old }
    ensures { sums.new ≡ block_gained w.now y.now sums.old }
{
    if w.len() == 4 {
        add_rows(&w[..4], y, sums);
    } else {
        add_rows(w, y, sums);
    }
}

// A block of m rows, the first of which is row t of Y, into each of the 8 rows of sums.
pub fn add_left(n: usize, c: usize, t: usize, m: usize, s: &[u16], y: &[u16], sums: &mut [u16])
    requires { (length s.now ≡ 8 * n) × (t + m ≤ n) × (length y.now ≡ m * c) × (length sums.old ≡ 8 * c) }
    ensures { sums.new ≡ gained 65536 m (part_term n c t s.now y.now) sums.old }
{
    for i in 0..8 {
        let a = i * c;
        let b = i * n + t;
        add_block(&s[b..b + m], y, &mut sums[a..a + c]);
    }
}

// A block of m rows, as numbers, which are made narrow once for all 8 rows of sums. The answer is the place of the first that is q or more, or how many
// there are.
fn left_block(
    q: u32,
    n: usize,
    c: usize,
    t: usize,
    m: usize,
    s: &[u16],
    y: &[u32],
    block: &mut [u16],
    sums: &mut [u16],
) -> usize
    requires q_nonzero { (0 < q) × (q ≤ 32768) × (length s.now ≡ 8 * n) × (t + m ≤ n) × (length y.now ≡ m * c) }
    requires block_len { (length block.old ≡ m * c) × (length sums.old ≡ 8 * c) }
    ensures value { result ≡ first_over_lem q y.now }
    ensures sums_value { Below q y.now → sums.new ≡ gained 65536 m (part_term n c t s.now y.now) sums.old }
{
    let at = narrow_below(q, y, block);
    add_left(n, c, t, m, s, block, sums);
    at
}

// All rows of Y, a block at a time, up to the first block that has a number which is q or more. The answer is its place, or Y's length.
fn left_rows(
    q: u32,
    n: usize,
    c: usize,
    s: &[u16],
    y: &[u32],
    block: &mut [u16],
    sums: &mut [u16],
) -> usize
    requires q_nonzero { (0 < q) × (q ≤ 32768) × (length y.now ≡ c * n) × (length s.now ≡ 8 * n) }
    requires c_in_bounds { (4 * c ≤ length block.old) × (length sums.old ≡ 8 * c) }
    ensures value { result ≡ first_over_lem q y.now }
    ensures sums_value { Below q y.now → sums.new ≡ gained 65536 n (left_term n c s.now y.now) sums.old }
{
    for t in (0..n).step_by(4) {
        let m = (n - t).min(4);
        let l = m * c;
        let d = t * c;
        let at = left_block(q, n, c, t, m, s, &y[d..d + l], &mut block[..l], sums);
        if at < l {
            return d + at;
        }
    }
    y.len()
}

// SY + E, with room for the secrets as words, a block of Y and the sums.
fn left_on(
    q: u32,
    n: usize,
    s: &[i32],
    y: &[u32],
    e: &[i32],
    factors: &mut [u16],
    block: &mut [u16],
    sums: &mut [u16],
    out: &mut [u32],
) -> usize
    requires shape { Shape q n n y.now s.now × (length e.now ≡ 8 * n) × (length out.old ≡ 8 * n) }
    requires factors_len { (length factors.old ≡ 8 * n) × (4 * n ≤ length block.old) × (length sums.old ≡ 8 * n) }
    ensures value { result ≡ first_over_lem q y.now }
    ensures out_value { Below q y.now → out.new ≡ left_mixed q n n 8 s.now y.now e.now }
{
    words(s, factors);
    words(e, sums);
    let at = left_rows(q, n, n, factors, y, block, sums);
    reduce(q, sums, out);
    at
}

// SY + E, where Y has n rows and n columns: S'A + E'. The answer is the place of the first number of Y that is q or more, or Y's length.
pub fn mix_left(q: u32, n: usize, s: &[i32], y: &[u32], e: &[i32], out: &mut [u32]) -> usize
    requires { (Shape q n n y.now s.now × (length out.old ≡ 8 * n)) × (length e.now ≡ 8 * n) }
    ensures { (result ≡ first_over_lem q y.now) × (Below q y.now → out.new ≡ left_mixed q n n 8 s.now y.now e.now) }
{
    let mut factors: [u16; 6912] = [0; 6912];
    let mut block: [u16; 3460] = [0; 3460];
    let mut sums: [u16; 6920] = [0; 6920];
    let k = 8 * n;
    left_on(
        q,
        n,
        s,
        y,
        e,
        &mut factors[..k],
        &mut block,
        &mut sums[..k],
        out,
    )
}

// The 8 columns of Y as words, one after the other. Numbers of 32 bits go from memory into a vector one by one; words of 16 bits would go through other
// registers: Finish in Challenge, with the columns of S made so, took 4.6 microseconds in place of 3.6.
fn turn(n: usize, y: &[u32], cols: &mut [u16])
    requires { (0 < n) × (length y.now ≡ 8 * n) × (length cols.old ≡ 8 * n) × Below 32768 y.now }
    ensures { cols.new ≡ turned n y.now }
{
    lay(n, |k| y[k] as u16, cols);
}

// SY + E, where Y has 8 columns, with room for S as words, the columns of Y and the sums.
fn eight_on(
    q: u32,
    n: usize,
    s: &[i32],
    y: &[u32],
    e: &[i32],
    ws: &mut [u16],
    cols: &mut [u16],
    sums: &mut [u16],
    out: &mut [u32],
)
    requires fit { Fit q n 8 y.now s.now × (length e.now ≡ 64) × (length out.old ≡ 64) }
    requires ws_len { (length ws.old ≡ 8 * n) × (length cols.old ≡ 8 * n) × (length sums.old ≡ 64) }
    ensures { out.new ≡ left_mixed q n 8 8 s.now y.now e.now }
{
    turn(n, y, cols);
    words(s, ws);
    words(e, sums);
    add_right(n, 8, ws, cols, sums);
    reduce(q, sums, out);
}

// SY + E, where Y has n rows and 8 columns: S'B + E''. A row of 8 numbers is one vector, so by rows each sum would be loaded and stored for few products: it
// goes by the columns of Y, as XS goes by those of S. Its arrays are 17 KiB of Reply's stack.
pub fn mix_eight(q: u32, n: usize, s: &[i32], y: &[u32], e: &[i32], out: &mut [u32])
    requires fit { Fit q n 8 y.now s.now × (length out.old ≡ 64) }
    requires e_len { length e.now ≡ 64 }
    ensures { out.new ≡ left_mixed q n 8 8 s.now y.now e.now }
{
    let mut ws: [u16; 6916] = [0; 6916];
    let mut cols: [u16; 6920] = [0; 6920];
    let mut sums: [u16; 64] = [0; 64];
    let k = 8 * n;
    eight_on(q, n, s, y, e, &mut ws[..k], &mut cols[..k], &mut sums, out);
}

// US, where U has 8 rows and n columns: B'S.
pub fn multiply(q: u32, n: usize, u: &[u32], s: &[i32], out: &mut [u32])
    requires { Fit q n 8 u.now s.now × (length out.old ≡ 64) }
    ensures { out.new ≡ bare q n 8 u.now s.now }
{
    let zeros: [i32; 64] = [0; 64];
    let mut cols: [u16; 6916] = [0; 6916];
    let mut line: [u16; 864] = [0; 864];
    let mut sums: [u16; 64] = [0; 64];
    let m = 8 * n;
    right_on(
        q,
        n,
        8,
        u,
        s,
        &zeros,
        &mut cols[..m],
        &mut line[..n],
        &mut sums,
        out,
    );
}
