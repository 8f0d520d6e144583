// What is drawn, and how an output is summed up: docs/VECTORS.md, "What is drawn" and "A line".
ghost use Rattle.std.specs.Prelude.{◌^◌, ◌<◌};

// The state that comes after x.
fn next(x: u32) -> u32 {
    (48271 * (x as u64) % 2147483647) as u32
}

// What a state gives below m.
fn below(x: u32, m: u32) -> u32
    requires { 0 < m }
    ensures { result < m }
{
    (19 * (x as u64) % (m as u64)) as u32
}

// What a state gives of at most b, of either sign.
fn within(x: u32, b: u32) -> i32
    requires { b < 2 ^ 30 }
{
    (below(x, 2 * b + 1) as i32) - (b as i32)
}

pub fn numbers(seed: u32, m: u32, out: &mut [u32])
    requires { 0 < m }
{
    let mut x = seed;
    for y in out.iter_mut() {
        x = next(x);
        *y = below(x, m);
    }
}

pub fn bytes(seed: u32, out: &mut [u8]) {
    let mut x = seed;
    for y in out.iter_mut() {
        x = next(x);
        *y = below(x, 256) as u8;
    }
}

pub fn values(seed: u32, b: u32, out: &mut [i32])
    requires { b < 2 ^ 30 }
{
    let mut x = seed;
    for y in out.iter_mut() {
        x = next(x);
        *y = within(x, b);
    }
}

// The checksum with one more entry.
fn more(h: u32, x: u32) -> u32 {
    ((65599 * (h as u64) + (x as u64)) % 4294967291) as u32
}

pub fn check_bytes(xs: &[u8]) -> u32 {
    xs.iter().fold(1, |h, x| more(h, u32::from(*x)))
}

pub fn check_numbers(xs: &[u32]) -> u32 {
    xs.iter().fold(1, |h, x| more(h, *x))
}

// What a value counts as: itself, or itself plus 2^32 where it is negative.
fn counted(z: i32) -> u32 {
    numbers::residue64(z as i64, 4294967296) as u32
}

pub fn check_values(xs: &[i32]) -> u32 {
    xs.iter().fold(1, |h, x| more(h, counted(*x)))
}
