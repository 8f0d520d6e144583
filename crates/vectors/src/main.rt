// The runs of docs/VECTORS.md: every call in every scheme on a good input and with one fault after the other, a line for each case. `stdout` is what the
// second program prints. What a program prints is run and not proved; each function here is proved safe.
// A write that fails ends the program with its error.
#![tactic(auto)]

mod draw;
mod exchange;
mod faults;
mod lent;
mod lines;
mod others;

use std::io;

#[derive(Clone, Copy)]
pub enum Call {
    Offer,
    Reply,
    Finish,
    Bench,
    Noise,
    Expand,
    Grow,
    Shake128,
    Sha3,
}

// Case c of a call, in the lines of scheme or rule k.
#[derive(Clone, Copy)]
pub struct Setting {
    pub call: Call,
    pub k: u32,
    pub c: u32,
}

fn case(call: Call, k: u32, c: u32) -> Setting {
    Setting {
        call: call,
        k: k,
        c: c,
    }
}

fn call_of(j: u32) -> Call {
    match j {
        0 => Call::Offer,
        1 => Call::Reply,
        2 => Call::Finish,
        3 => Call::Bench,
        _ => Call::Noise,
    }
}

// The 55 lines of a scheme: the cases 0 to 9 of each call, then case 10 of each.
fn of_scheme(k: u32, j: u32) -> Setting {
    if j < 50 {
        case(call_of(j / 10), k, j % 10)
    } else {
        case(call_of(j - 50), k, 10)
    }
}

fn of_no_scheme(j: u32, c: u32) -> Setting {
    match j {
        0 => case(Call::Expand, 14, c),
        1 => case(Call::Expand, 16, c),
        2 => case(Call::Grow, 14, c),
        3 => case(Call::Grow, 16, c),
        4 => case(Call::Shake128, 0, c),
        _ => case(Call::Sha3, 0, c),
    }
}

// What line i tells.
fn line(i: u32) -> Setting {
    if i < 330 {
        of_scheme(i / 55, i % 55)
    } else {
        of_no_scheme((i - 330) / 10, i % 10)
    }
}

fn run(rt: &impl Print, g: Setting, a: &[u32], values: &[i32], bytes: &mut [u8]) -> io::Result<()> {
    let call = g.call;
    match call {
        Call::Offer => exchange::offer_case(rt, g, a, values, bytes),
        Call::Reply => exchange::reply_case(rt, g, a, values, bytes),
        Call::Finish => exchange::finish_case(rt, g, values, bytes),
        Call::Bench => exchange::bench_case(rt, g, a, values, bytes),
        Call::Noise => others::noise_case(rt, g, bytes),
        Call::Expand | Call::Grow => others::numbers_case(rt, g, bytes),
        Call::Shake128 | Call::Sha3 => others::hash_case(rt, g, bytes),
    }
}

fn step(
    rt: &impl Print,
    g: Setting,
    a: &mut [u32],
    values: &mut [i32],
    bytes: &mut [u8],
) -> io::Result<()> {
    faults::prepare(g, a, values, bytes);
    run(rt, g, a, values, bytes)
}

fn all(rt: &impl Print, a: &mut [u32], values: &mut [i32], bytes: &mut [u8]) -> io::Result<()> {
    for i in 0..390 {
        step(rt, line(i), a, values, bytes)?;
    }
    Ok(())
}

// The lists, as long as the longest of any call; a function each, so that no proof holds two of them at length.
fn with_bytes(rt: &impl Print, a: &mut [u32], values: &mut [i32]) -> io::Result<()> {
    let mut bytes = [0u8; 65537];
    all(rt, a, values, &mut bytes)
}

fn with_values(rt: &impl Print, a: &mut [u32]) -> io::Result<()> {
    let mut values = [0i32; 34720];
    with_bytes(rt, a, &mut values)
}

fn main(rt: HostRuntime) -> io::Result<()> {
    let mut a = [0u32; 746497];
    with_values(&rt, &mut a)
}
