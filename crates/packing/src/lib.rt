// Numbers of w bits as bytes and back, w from 1 to 32: 01, "Bytes on the wire". Both fill the whole of `out`.
//
// Eight numbers are w bytes. At the widths that the schemes use, groups of eight go through code that is made for the width, a const
// parameter, in which every shift and every place is a constant. What is left behind the last group, and every other width, goes through a bit
// accumulator in a machine word: numbers go in at one end and bytes come out at the other, four at a time, and the other way round. Between turns
// fewer than 32 bits are held, so 32 more still fit it.

#![tactic(auto)]

ghost use Rattle.std.specs.Prelude.{◌≡◌, ◌++◌, ◌+◌, ◌-◌, ◌*◌, ◌/◌, ◌%◌, ◌^◌, ◌≤◌, ◌<◌, length, get_or, take, drop};
ghost use Rattle.lists.specs.Ranges.{Below};
ghost use Rattle.packing.specs.Packing.{value, digits, packed, unpacked};

// The bytes of the numbers, each below 2^w: in groups where there is a way for the width, then one by one.
pub fn pack(w: u32, xs: &[u32], out: &mut [u8])
    requires w_nonzero { (0 < w) × (w ≤ 32) × Below (2 ^ w) xs.now }
    requires xs_value { w * length xs.now ≡ 8 * length out.old }
    ensures { out.new ≡ packed w xs.now }
{
    let done = pack_most(w, xs, out);
    pack_rest(w, xs, out, done);
}

// Groups of eight numbers, and how many groups. Each width of the schemes has a loop of its own.
fn pack_most(w: u32, xs: &[u32], out: &mut [u8]) -> usize
    requires w_nonzero { (0 < w) × (w ≤ 32) × Below (2 ^ w) xs.now }
    requires xs_value { w * length xs.now ≡ 8 * length out.old }
    ensures { (w * result ≤ length out.old) × (take (w * result) out.new ≡ digits 256 (w * result) (value (2 ^ w) xs.now)) }
{
    match w {
        1 => pack_groups::<1>(xs, out),
        2 => pack_groups::<2>(xs, out),
        4 => pack_groups::<4>(xs, out),
        11 => pack_groups::<11>(xs, out),
        12 => pack_groups::<12>(xs, out),
        14 => pack_groups::<14>(xs, out),
        15 => pack_groups::<15>(xs, out),
        32 => pack_words(xs, out),
        _ => 0,
    }
}

// Groups of eight numbers, w bytes each, as long as their stores stay within the bytes.
fn pack_groups<const W: u32>(xs: &[u32], out: &mut [u8]) -> usize
    requires w_nonzero { (0 < W) × (W < 16) × Below (2 ^ W) xs.now }
    requires xs_value { W * length xs.now ≡ 8 * length out.old }
    ensures { (W * result ≤ length out.old) × (take (W * result) out.new ≡ digits 256 (W * result) (value (2 ^ W) xs.now)) }
{
    let size = W as usize;
    let groups = out.len().saturating_sub(16 - size) / size;
    for g in 0..groups {
        let low = quad(W, xs, 8 * g);
        let high = quad(W, xs, 8 * g + 4);
        put_group(W, low, high, out, size * g);
    }
    groups
}

// Numbers of 32 bits: four bytes each, which the compiler copies several at a time. All are packed; the whole groups of them count.
fn pack_words(xs: &[u32], out: &mut [u8]) -> usize
    requires below { Below (2 ^ 32) xs.now }
    requires xs_value { 32 * length xs.now ≡ 8 * length out.old }
    ensures { (32 * result ≤ length out.old) × (take (32 * result) out.new ≡ digits 256 (32 * result) (value (2 ^ 32) xs.now)) }
{
    for j in 0..xs.len() {
        put_word(out, 4 * j, xs[j] as u64);
    }
    xs.len() / 8
}

// Four numbers as one of 4 w bits, in four turns, which the compiler unrolls.
fn quad(w: u32, xs: &[u32], j: usize) -> u64
    requires { (w < 16) × Below (2 ^ w) xs.now × (j + 4 ≤ length xs.now) }
    ensures { result ≡ value (2 ^ w) (take 4 (drop j xs.now)) }
{
    let mut v = 0;
    for k in (0..4).rev() {
        v = onto(w, v, xs[j + k]);
    }
    v
}

// v, with x in the w bits below it.
fn onto(w: u32, v: u64, x: u32) -> u64
    requires { (w < 64) × (v * 2 ^ w + x < 18446744073709551616) }
    ensures { result ≡ v * 2 ^ w + x }
{
    (v << w) + x as u64
}

// Eight numbers, of which `low` has four and `high` four, at i, in two words of 64 bits. What these have beyond w bytes the next group overwrites.
fn put_group(w: u32, low: u64, high: u64, out: &mut [u8], i: usize)
    requires { (0 < w) × (w < 16) × (low < 2 ^ (4 * w)) × (i + 16 ≤ length out.old) }
    ensures { out.new ≡ take i out.old ++ digits 256 16 (low + 2 ^ (4 * w) * high) ++ drop (i + 16) out.old }
{
    let lower = low + (high << (4 * w));
    let upper = high >> (64 - 4 * w);
    put_words(out, i, lower);
    put_words(out, i + 8, upper);
}

// The numbers behind the groups that are done, to the end, at any width.
fn pack_rest(w: u32, xs: &[u32], out: &mut [u8], done: usize)
    requires w_nonzero { (0 < w) × (w ≤ 32) × Below (2 ^ w) xs.now }
    requires xs_value { w * length xs.now ≡ 8 * length out.old }
    requires done_in_bounds { (w * done ≤ length out.old) × (take (w * done) out.old ≡ digits 256 (w * done) (value (2 ^ w) xs.now)) }
    ensures { out.new ≡ packed w xs.now }
{
    let mut acc: u64 = 0;
    let mut held: u32 = 0;
    let mut j: usize = w as usize * done;
    for i in 8 * done..xs.len() {
        acc += (xs[i] as u64) << held;
        held += w;
        if 32 <= held {
            put_word(out, j, acc);
            acc = acc >> 32;
            held -= 32;
            j += 4;
        }
    }
    put_rest(out, j, acc);
}

// The eight bytes of v, at j.
fn put_words(out: &mut [u8], j: usize, v: u64)
    requires { j + 8 ≤ length out.old }
    ensures { out.new ≡ take j out.old ++ digits 256 8 v ++ drop (j + 8) out.old }
{
    out[j..j + 8].copy_from_slice(&v.to_le_bytes());
}

// The four lowest bytes of v, at j.
fn put_word(out: &mut [u8], j: usize, v: u64)
    requires { j + 4 ≤ length out.old }
    ensures { out.new ≡ take j out.old ++ digits 256 4 v ++ drop (j + 4) out.old }
{
    let word = (v % 4294967296) as u32;
    out[j..j + 4].copy_from_slice(&word.to_le_bytes());
}

// The lowest bytes of v, from j to the end: what is left when the numbers fill no whole word.
fn put_rest(out: &mut [u8], j: usize, mut v: u64)
    requires { j ≤ length out.old }
    ensures { out.new ≡ take j out.old ++ digits 256 (length out.old - j) v }
{
    for i in j..out.len() {
        out[i] = (v % 256) as u8;
        v = v / 256;
    }
}

// The numbers that the bytes hold: in groups where there is a way for the width, then one by one.
pub fn unpack(w: u32, bytes: &[u8], out: &mut [u32])
    requires w_nonzero { (0 < w) × (w ≤ 32) }
    requires bytes_value { 8 * length bytes.now ≡ w * length out.old }
    ensures { out.new ≡ unpacked w (length out.old) bytes.now }
{
    let done = unpack_most(w, bytes, out);
    unpack_rest(w, bytes, out, done);
}

// Groups of eight numbers, and how many groups. Each width of the schemes has a loop of its own.
fn unpack_most(w: u32, bytes: &[u8], out: &mut [u32]) -> usize
    requires w_nonzero { (0 < w) × (w ≤ 32) }
    requires bytes_value { 8 * length bytes.now ≡ w * length out.old }
    ensures { (w * result ≤ length bytes.now) × (take (8 * result) out.new ≡ digits (2 ^ w) (8 * result) (value 256 bytes.now)) }
{
    match w {
        1 => unpack_groups::<1>(bytes, out),
        2 => unpack_groups::<2>(bytes, out),
        4 => unpack_groups::<4>(bytes, out),
        11 => unpack_groups::<11>(bytes, out),
        12 => unpack_groups::<12>(bytes, out),
        14 => unpack_groups::<14>(bytes, out),
        15 => unpack_groups::<15>(bytes, out),
        32 => unpack_groups::<32>(bytes, out),
        _ => 0,
    }
}

// Groups of eight numbers, w bytes each, as long as their reads stay within the bytes.
fn unpack_groups<const W: u32>(bytes: &[u8], out: &mut [u32]) -> usize
    requires w_nonzero { (0 < W) × (W ≤ 32) }
    requires bytes_value { 8 * length bytes.now ≡ W * length out.old }
    ensures { (W * result ≤ length bytes.now) × (take (8 * result) out.new ≡ digits (2 ^ W) (8 * result) (value 256 bytes.now)) }
{
    let size = W as usize;
    let groups = bytes.len().saturating_sub(7) / size;
    for g in 0..groups {
        unpack_group(W, bytes, size * g, out, 8 * g);
    }
    groups
}

// The eight numbers from byte i on, at j.
fn unpack_group(w: u32, bytes: &[u8], i: usize, out: &mut [u32], j: usize)
    requires { (0 < w) × (w ≤ 32) × (i + w + 7 ≤ length bytes.now) × (j + 8 ≤ length out.old) }
    ensures { out.new ≡ take j out.old ++ digits (2 ^ w) 8 (value 256 (drop i bytes.now)) ++ drop (j + 8) out.old }
{
    // eight turns, which the compiler unrolls
    for k in 0..8u32 {
        out[j + k as usize] = number(w, bytes, i, k * w);
    }
}

// The number of w bits that starts t bits behind byte i. It lies within eight bytes, which are one load: five would do, but
// they are several loads, and the loop is then no longer compiled into the arm of each width.
fn number(w: u32, bytes: &[u8], i: usize, t: u32) -> u32
    requires { (w ≤ 32) × (i + t / 8 + 8 ≤ length bytes.now) }
    ensures { result ≡ value 256 (drop i bytes.now) / 2 ^ t % 2 ^ w }
{
    let a = i + (t / 8) as usize;
    let v = four(bytes, a) + 4294967296 * four(bytes, a + 4);
    ((v >> (t % 8)) % (1u64 << w)) as u32
}

// The number of the four bytes from i on, which compile to one load.
fn four(bytes: &[u8], i: usize) -> u64
    requires { i + 4 ≤ length bytes.now }
    ensures { (result ≡ value 256 (take 4 (drop i bytes.now))) × (result < 4294967296) }
{
    u64::from(u32::from_le_bytes([bytes[i], bytes[i + 1], bytes[i + 2], bytes[i + 3]]))
}

// The numbers behind the groups that are done, to the end, at any width.
fn unpack_rest(w: u32, bytes: &[u8], out: &mut [u32], done: usize)
    requires w_nonzero { (0 < w) × (w ≤ 32) }
    requires bytes_value { 8 * length bytes.now ≡ w * length out.old }
    requires done_in_bounds { (w * done ≤ length bytes.now) × (take (8 * done) out.old ≡ digits (2 ^ w) (8 * done) (value 256 bytes.now)) }
    ensures { out.new ≡ unpacked w (length out.old) bytes.now }
{
    // a remainder by a shifted 1 compiles to a mask
    let base: u64 = 1u64 << w;
    let mut acc: u64 = 0;
    let mut held: u32 = 0;
    let mut i: usize = w as usize * done;
    for j in 8 * done..out.len() {
        if held < w {
            acc += word(bytes, i) << held;
            held += 32;
            i += 4;
        }
        out[j] = (acc % base) as u32;
        acc = acc >> w;
        held -= w;
    }
}

// The number of the four bytes from i on; past the end they read 0, so the last word needs no count of its own.
fn word(bytes: &[u8], i: usize) -> u64
    requires { i ≤ length bytes.now }
    ensures { result ≡ value 256 (take 4 (drop i bytes.now)) }
{
    if i + 4 <= bytes.len() {
        four(bytes, i)
    } else {
        u64::from(u32::from_le_bytes([
            byte(bytes, i),
            byte(bytes, i + 1),
            byte(bytes, i + 2),
            byte(bytes, i + 3),
        ]))
    }
}

// Byte i, or 0 past the end.
fn byte(bytes: &[u8], i: usize) -> u8
    ensures { result ≡ get_or bytes.now i 0 }
{
    if i < bytes.len() { bytes[i] } else { 0 }
}
