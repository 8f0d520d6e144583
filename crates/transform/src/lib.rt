// The NewHope transform: 01, "The NewHope transform". `forward` yields 01's sums, `inverse` undoes them, and `product` is the product modulo X^1024 + 1, each in
// place on 1,024 numbers below 12289 and with the table of the powers of 7 (`powers`). The theorems, that the table has the
// powers, that the two undo each other and that products go through the transform, are stated in `specs/Theorems.antt`.
// The sums are made by Stockham's method, decimation in time (`specs/Level.antt`): ten levels between two buffers, all of whose powers stand below the table's
// middle, so that no index is reduced. The buffers have 16 bits a number, so that eight are reckoned at a time, and nothing is reduced further than that asks.
// In the last four levels a block has eight entries or fewer. There entry o of all blocks lies side by side, and each block has its power in a vector.

#![tactic(auto)]

ghost use Rattle.std.specs.Prelude.{◌≡◌, ◌+◌, ◌*◌, ◌%◌, ◌<◌, ◌≤◌, length};
ghost use Rattle.lists.specs.Ranges.{Below};
ghost use Rattle.transform.specs.Transform.{transformed, inverted};
ghost use Rattle.transform.specs.Theorems.{entrywise, multiplied};
ghost use Rattle.transform.specs.Level.{tight, factor, powered, stored, Butterflies, OneBlock, Factors, Powers, Crossed, remainders, sums, scaled};

use powers::Table;
use schemes::NewHope;

pub mod on_transforms;
mod powers;

// x, less a multiple of 12289: far enough below 2^16 that twice 12289 can be added.
fn tight(x: u16) -> u16
    ensures { (result ≡ tight x) × (result < 16380) }
{
    let h = 5 * (x as u32) / 65536;
    x - ((h * NewHope::Q) as u16)
}

// w y, less a multiple of 12289: f is w / 12289, cut after 16 bits, so that f y misses the quotient by less than 2. Both products are taken modulo 2^16, where
// their difference fits.
fn powered(w: u16, f: u16, y: u16) -> u16
    requires { f ≡ factor w }
    ensures { (result ≡ powered w y) × (result < 24578) }
{
    let p = (w as u32) * (y as u32);
    let h = (y as u32) * (f as u32) / 65536;
    ((p % 65536) as u16).wrapping_sub((h * NewHope::Q % 65536) as u16)
}

// Two entries of the level before, h apart, make two of the next, e apart.
fn join(
    src: &[u16; 1024],
    dst: &mut [u16; 1024],
    w: u16,
    f: u16,
    r: usize,
    h: usize,
    k: usize,
    e: usize,
)
    requires { (f ≡ factor w) × (r + h < 1024) × (k + e < 1024) }
    ensures { dst.new ≡ stored src.now w r h k e dst.old }
{
    let r1 = r + h;
    let k1 = k + e;
    let x = tight(src[r]);
    let y = powered(w, f, src[r1]);
    dst[k] = x + y;
    dst[k1] = x + 24578 - y;
}

// 16 entries of one block, from k on: they share their power. Its factor stands in an array, of which the compiler makes a vector of 16 bits a number; of one
// factor it makes a vector of 32 bits a number, and multiplies twice.
fn run(t: &Table, src: &[u16; 1024], dst: &mut [u16; 1024], a: usize, h: usize, k: usize)
    requires a_bound { (a < 2) × (0 < h) × OneBlock h 16 k }
    requires made { Butterflies src.now a h k dst.old }
    ensures { Butterflies src.now a h (k + 16) dst.new }
{
    let i = k / h;
    let r = k + i * h;
    let e = h * (a + 2 * i);
    let v = t.powers[e];
    let w = v as u16;
    let f = (65536 * v / NewHope::Q) as u16;
    let fs = [f; 16];
    for j in 0..16 {
        join(src, dst, w, fs[j], r + j, h, k + j, 512);
    }
}

// One level, in runs of 16 entries, which lie side by side. It is small enough to be compiled anew into each of its six calls, where h is a constant and a run
// is laid out in vectors. With more than 16 factors it would be too large for that, as it would with two halvings a level.
fn level(t: &Table, src: &[u16; 1024], dst: &mut [u16; 1024], a: usize, h: usize)
    requires a_bound { (a < 2) × (0 < h) × (512 % h ≡ 0) × (h % 16 ≡ 0) }
    requires dst_len { length dst.old ≡ 1024 }
    ensures { Butterflies src.now a h 512 dst.new }
{
    for k in (0..512).step_by(16) {
        run(t, src, dst, a, h, k);
    }
}

// The powers of m blocks, and their factors.
fn lay(t: &Table, ws: &mut [u16; 512], fs: &mut [u16; 512], a: usize, h: usize, m: usize)
    requires a_bound { (a < 2) × (0 < h) × (h * m ≡ 512) }
    requires lengths { (length ws.old ≡ 512) × (length fs.old ≡ 512) }
    ensures { Powers a h m ws.new fs.new }
{
    for i in 0..m {
        let v = t.powers[h * (a + 2 * i)];
        ws[i] = v as u16;
        fs[i] = (65536 * v / NewHope::Q) as u16;
    }
}

// Entry o of each of m blocks. They are written side by side, those of the first half before those of the second.
fn row(
    ws: &[u16; 512],
    fs: &[u16; 512],
    src: &[u16; 1024],
    dst: &mut [u16; 1024],
    h: usize,
    m: usize,
    u: usize,
    v: usize,
    o: usize,
)
    requires o_lt_h { (o < h) × (0 < m) × (h * m ≡ 512) × (2 * (h * u) + m * v ≤ 1023 + u + v) × Factors m ws.now fs.now }
    requires crossed { Crossed src.now ws.now h m u v (o * m) dst.old }
    ensures { Crossed src.now ws.now h m u v (o * m + m) dst.new }
{
    let d = h * u;
    let r = o * u;
    let k = o * (2 * m);
    for i in 0..m {
        join(src, dst, ws[i], fs[i], r + i * v, d, k + i, m);
    }
}

// One level, where entry o of block i is read at o u + i v.
// h, m, u and v are no struct: each call gives them as literals, and the loops are laid out by these.
fn cross(
    ws: &[u16; 512],
    fs: &[u16; 512],
    src: &[u16; 1024],
    dst: &mut [u16; 1024],
    h: usize,
    m: usize,
    u: usize,
    v: usize,
)
    requires m_nonzero { (0 < m) × (h * m ≡ 512) × (2 * (h * u) + m * v ≤ 1023 + u + v) × Factors m ws.now fs.now }
    requires dst_len { length dst.old ≡ 1024 }
    ensures { Crossed src.now ws.now h m u v 512 dst.new }
{
    for o in 0..h {
        row(ws, fs, src, dst, h, m, u, v, o);
    }
}

// The numbers, in 16 bits.
fn narrow(src: &[u32; 1024], dst: &mut [u16; 1024])
    requires { Below 12289 src.now × (length src.now ≡ 1024) × (length dst.old ≡ 1024) }
    ensures { dst.new ≡ src.now }
{
    for (k, x) in dst.iter_mut().enumerate() {
        *x = src[k] as u16;
    }
}

fn reduce(src: &[u16; 1024], dst: &mut [u32; 1024])
    requires { Below 65536 src.now × (length dst.old ≡ 1024) }
    ensures { dst.new ≡ remainders src.now }
{
    for (k, x) in dst.iter_mut().enumerate() {
        *x = (src[k] as u32) % NewHope::Q;
    }
}

// Entry i becomes the sum over j of g_j 7^(j (a + 2i)): the transform where a is 1, and the sums of its inverse, the other way round, where a is 0.
// The buffers are locals, so that the compiler sees that they do not overlap.
fn sums(t: &Table, g: &mut [u32; 1024], a: usize)
    requires { (a < 2) × Below 12289 g.old × (length g.old ≡ 1024) }
    ensures { g.new ≡ sums a g.old }
{
    let mut p = [0u16; 1024];
    let mut s = [0u16; 1024];
    let mut ws = [0u16; 512];
    let mut fs = [0u16; 512];
    narrow(g, &mut p);
    level(t, &p, &mut s, a, 512);
    level(t, &s, &mut p, a, 256);
    level(t, &p, &mut s, a, 128);
    level(t, &s, &mut p, a, 64);
    level(t, &p, &mut s, a, 32);
    level(t, &s, &mut p, a, 16);
    lay(t, &mut ws, &mut fs, a, 8, 64);
    cross(&ws, &fs, &p, &mut s, 8, 64, 1, 16);
    lay(t, &mut ws, &mut fs, a, 4, 128);
    cross(&ws, &fs, &s, &mut p, 4, 128, 128, 1);
    lay(t, &mut ws, &mut fs, a, 2, 256);
    cross(&ws, &fs, &p, &mut s, 2, 256, 256, 1);
    lay(t, &mut ws, &mut fs, a, 1, 512);
    cross(&ws, &fs, &s, &mut p, 1, 512, 512, 1);
    reduce(&p, g);
}

// The transform, in place. Whoever makes several lends the table to all: making it copies it.
// What is asked of g is no struct's rule, for C lends the bare array.
fn ahead(t: &Table, g: &mut [u32; 1024])
    requires { Below 12289 g.old × (length g.old ≡ 1024) }
    ensures { g.new ≡ transformed g.old }
{
    sums(t, g, 1);
}

pub fn forward(g: &mut [u32; 1024])
    requires { Below 12289 g.old × (length g.old ≡ 1024) }
    ensures { g.new ≡ transformed g.old }
{
    let t = Table::new();
    ahead(&t, g);
}

// Entry k of the inverse is entry 1024 - k of the sums times 12277 7^-k, which is 12 7^(1024 - k): 12277 is -12, and -1 is 7^1024. 12288 * (12 * 12288) fits.
fn scale(t: &Table, src: &[u32; 1024], dst: &mut [u32; 1024])
    requires { Below 12289 src.now × (length dst.old ≡ 1024) }
    ensures { dst.new ≡ scaled src.now }
{
    dst[0] = src[0] * (12 * t.powers[NewHope::N]) % NewHope::Q;
    for k in 1..NewHope::N {
        let r = NewHope::N - k;
        dst[k] = src[r] * (12 * t.powers[r]) % NewHope::Q;
    }
}

// The inverse, in place.
fn back(t: &Table, g: &mut [u32; 1024])
    requires { Below 12289 g.old × (length g.old ≡ 1024) }
    ensures { g.new ≡ inverted g.old }
{
    sums(t, g, 0);
    let s = *g;
    scale(t, &s, g);
}

pub fn inverse(g: &mut [u32; 1024])
    requires { Below 12289 g.old × (length g.old ≡ 1024) }
    ensures { g.new ≡ inverted g.old }
{
    let t = Table::new();
    back(&t, g);
}

// The product modulo X^1024 + 1, through the transform, into a; b is left transformed.
pub fn product(a: &mut [u32; 1024], b: &mut [u32; 1024])
    requires { Below 12289 a.old × (length a.old ≡ 1024) × Below 12289 b.old × (length b.old ≡ 1024) }
    ensures a_after { a.new ≡ multiplied a.old b.old }
    ensures b_after { b.new ≡ transformed b.old }
{
    let t = Table::new();
    ahead(&t, a);
    ahead(&t, b);
    on_transforms::weigh(b, a);
    back(&t, a);
}
