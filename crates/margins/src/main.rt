// Bench near the margin, on both sides where that is possible: docs/AGREEMENT.md, "Worked runs", which has the inputs of each run. `stdout` is what the
// second program prints. What is not written is zero. A whole number that is written is the difference of two natural ones.
// A write that fails ends the program with its error.
#![tactic(auto)]

ghost use Rattle.std.specs.Prelude.{◌^◌, ◌≤◌, ◌<◌};

use bench::Compared;
use refusals::Refusal;
use schemes::Scheme;
use std::io;

fn text(rt: &impl Print, t: &[u8]) -> io::Result<()> {
    rt.write_all(t)
}

// A name and its number.
fn field(rt: &impl Print, name: &[u8], n: u64) -> io::Result<()> {
    text(rt, name)?;
    print!(rt; "{n}")
}

// A run's line.
fn told(
    rt: &impl Print,
    scheme: u32,
    name: &[u8],
    answer: Result<Compared, Refusal>,
) -> io::Result<()> {
    field(rt, b"bench scheme=", scheme as u64)?;
    text(rt, b" run=")?;
    text(rt, name)?;
    match answer {
        Ok(n) => match n.differ {
            None => text(rt, b" agree")?,
            Some(bit) => field(rt, b" differ=", bit as u64)?,
        },
        Err(r) => {
            field(rt, b" refusal=", r.number() as u64)?;
            field(rt, b" place=", r.place() as u64)?;
        }
    }
    text(rt, b"\n")
}

fn less(up: u32, down: u32) -> i32
    requires { (up < 2 ^ 31) × (down < 2 ^ 31) }
{
    (up as i32) - (down as i32)
}

// Makes entry k, where there is one, up less down.
fn put(xs: &mut [i32], k: usize, up: u32, down: u32)
    requires { (up < 2 ^ 31) × (down < 2 ^ 31) }
{
    if k < xs.len() {
        xs[k] = less(up, down);
    }
}

// The largest d that there is.
fn bcns(rt: &impl Print) -> io::Result<()> {
    let a = [1u32; 1024];
    let most = [51i32; 1024];
    let least = [-51i32; 1024];
    let seed = [0u8; 0];
    let coins = [0u8; 256];
    let answer = bench::bench(0, &a, &most, &most, &seed, &most, &least, &most, &coins);
    told(rt, 0, b"largest", answer)
}

// NewHope's targets are told 16 times 512 higher: none is then below 0, and division rounds down.
const HIGHER: u32 = 8192;

// The entry that stands so many before entry k. Below 0 it is the one at 1024 more, with the other sign.
fn put_before(xs: &mut [i32], k: usize, before: usize, up: u32, down: u32)
    requires { (k < 1024) × (before ≤ 32) × (up < 2 ^ 31) × (down < 2 ^ 31) }
{
    if before <= k {
        put(xs, k - before, up, down);
    } else {
        put(xs, 1024 + k - before, down, up);
    }
}

// Part i of the 32 that s is cut into.
fn part(s: u32, i: u32) -> u32
    requires { (s < 2048) × (i < 32) }
    ensures { result < 2 ^ 31 }
{
    let below = s * i;
    (below + s) / 32 - below / 32
}

// S, the target's 16th part, over entry k and the 31 before it; each of its parts is 16 higher than it should be.
fn spread(xs: &mut [i32], k: usize, target: u32)
    requires { (k < 1024) × (target < 32768) }
{
    for i in 0..32 {
        put_before(xs, k, i as usize, part(target / 16, i), 16);
    }
}

// The target of entry k of v.
fn target_v(k: usize, target: u32, e: &mut [i32], e2: &mut [i32])
    requires { (k < 1024) × (target < 32768) }
{
    spread(e, k, target);
    put(e2, k, target % 16, 0);
}

// The target of entry k of w.
fn target_w(k: usize, target: u32, e1: &mut [i32])
    requires { (k < 1024) × (target < 32768) }
{
    spread(e1, k, target);
    put_before(e1, k, 32, target % 16, 0);
}

// 16 in each of the first 32 entries.
fn sixteens(xs: &mut [i32]) {
    for k in 0..32 {
        put(xs, k, 16, 0);
    }
}

// The noise that gives v and w their targets, of which w's third is told.
fn targets(third: u32, e: &mut [i32], e1: &mut [i32], e2: &mut [i32])
    requires { third < 32768 }
{
    target_v(0, HIGHER + 4240, e, e2);
    target_v(256, HIGHER + 4346, e, e2);
    target_v(512, HIGHER + 499, e, e2);
    target_v(768, HIGHER + 3202, e, e2);
    target_w(0, HIGHER + 1936, e1);
    target_w(256, HIGHER + 2042, e1);
    target_w(512, third, e1);
    target_w(768, HIGHER + 899, e1);
}

fn newhope_in(
    rt: &impl Print,
    name: &[u8],
    third: u32,
    s: &mut [i32],
    e: &mut [i32],
    s1: &mut [i32],
    e1: &mut [i32],
    e2: &mut [i32],
) -> io::Result<()>
    requires { third < 32768 }
{
    let a = [0u32; 1024];
    let seed = [0u8; 32];
    let coins = [255u8; 32];
    sixteens(s1);
    sixteens(s);
    put(s, 32, 1, 0);
    targets(third, e, e1, e2);
    let answer = bench::bench(1, &a, s, e, &seed, s1, e1, e2, &coins);
    told(rt, 1, name, answer)
}

// Lends `newhope_in` its lists.
fn newhope(rt: &impl Print, name: &[u8], third: u32) -> io::Result<()>
    requires { third < 32768 }
{
    let mut s = [0i32; 1024];
    let mut e = [0i32; 1024];
    let mut s1 = [0i32; 1024];
    let mut e1 = [0i32; 1024];
    let mut e2 = [0i32; 1024];
    newhope_in(rt, name, third, &mut s, &mut e, &mut s1, &mut e1, &mut e2)
}

// The number at index i is (7i + 1) mod q.
fn public_numbers(q: u32, a: &mut [u32])
    requires { 1 < q }
{
    let mut x: u64 = 1;
    for entry in a.iter_mut() {
        *entry = x as u32;
        x = (x + 7) % (q as u64);
    }
}

// The k-th entry of E' in its first row is x, that of S in its first column is -y.
fn meet(k: u32, x: u32, y: u32, s: &mut [i32], e1: &mut [i32])
    requires { (x < 2 ^ 31) × (y < 2 ^ 31) }
{
    put(e1, k as usize, x, 0);
    put(s, 8 * (k as usize), 0, y);
}

// The first terms: b times -b, so many times.
fn full_terms(full: u32, b: u32, s: &mut [i32], e1: &mut [i32])
    requires { b < 2 ^ 31 }
{
    for k in 0..full {
        meet(k, b, b, s, e1);
    }
}

// E' and S give W the entry -t in the first place, by t's digits in base b: after the full terms one of b times -(t / b % b) and one of 1 times -(t % b).
fn secrets(t: u32, b: u32, s: &mut [i32], e1: &mut [i32])
    requires { (t < 2 ^ 31) × (0 < b) × (b < 2 ^ 31) }
{
    let full = t / b / b;
    full_terms(full, b, s, e1);
    meet(full, b, t / b % b, s, e1);
    meet(full + 1, 1, t % b, s, e1);
}

fn frodo_in(
    rt: &impl Print,
    scheme: u32,
    name: &[u8],
    t: u32,
    q: u32,
    b: u32,
    a: &mut [u32],
    s: &mut [i32],
    e: &[i32],
    s1: &[i32],
    e1: &mut [i32],
) -> io::Result<()>
    requires { (t < 2 ^ 31) × (1 < q) × (0 < b) × (b < 2 ^ 31) }
{
    let seed = [0u8; 16];
    let e2 = [0i32; 64];
    let coins = [0u8; 0];
    public_numbers(q, a);
    secrets(t, b, s, e1);
    let answer = bench::bench(scheme, a, s, e, &seed, s1, e1, &e2, &coins);
    told(rt, scheme, name, answer)
}

// Lends `frodo_in` its lists, of which no scheme has longer ones.
fn frodo_run(
    rt: &impl Print,
    scheme: u32,
    name: &[u8],
    t: u32,
    q: u32,
    b: u32,
    public: usize,
    secret: usize,
) -> io::Result<()>
    requires { (t < 2 ^ 31) × (1 < q) × (0 < b) × (b < 2 ^ 31) × (public ≤ 746496) × (secret ≤ 6912) }
{
    let mut a = [0u32; 746496];
    let mut s = [0i32; 6912];
    let e = [1i32; 6912];
    let s1 = [0i32; 6912];
    let mut e1 = [0i32; 6912];
    frodo_in(
        rt,
        scheme,
        name,
        t,
        q,
        b,
        &mut a[..public],
        &mut s[..secret],
        &e[..secret],
        &s1[..secret],
        &mut e1[..secret],
    )
}

// A quarter of the rounding interval, and one more.
fn frodo(rt: &impl Print, scheme: Scheme) -> io::Result<()> {
    let f = scheme.fixed();
    let no = scheme.number();
    let quarter = (f.q >> f.keybits) / 4;
    frodo_run(rt, no, b"at", quarter, f.q, f.largest, f.public, f.secret)?;
    frodo_run(
        rt,
        no,
        b"beyond",
        quarter + 1,
        f.q,
        f.largest,
        f.public,
        f.secret,
    )
}

fn main(rt: HostRuntime) -> io::Result<()> {
    bcns(&rt)?;
    newhope(&rt, b"at", HIGHER - 1804)?;
    newhope(&rt, b"beyond", HIGHER - 1805)?;
    frodo(&rt, Scheme::Challenge)?;
    frodo(&rt, Scheme::Classical)?;
    frodo(&rt, Scheme::Recommended)?;
    frodo(&rt, Scheme::Paranoid)
}
