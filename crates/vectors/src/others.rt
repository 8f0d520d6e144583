// A line for a case of Noise, Expand, Grow or a hash: calls that take bytes, which stand first in the buffer.
use crate::lent::{Count, front, longer, name, part, room};
use crate::{Call, Setting, draw, lent, lines};
use refusals::Refusal;
use std::io;

// Word i of Noise's table: each of an entry's three is 2^58 times the entry's number, counted from 1. In cases 6 to 9 the entries from 25 on are each
// the one before.
fn word(i: usize, c: u32) -> u64 {
    let entry = lent::cut(i / 3, 60);
    if c % 10 < 6 || entry < 25 {
        ((entry + 1) as u64) * 288230376151711744
    } else {
        (entry as u64) * 288230376151711744
    }
}

fn make(table: &mut [u64], c: u32) {
    for (i, x) in table.iter_mut().enumerate() {
        *x = word(i, c);
    }
}

fn words_of(k: u32) -> usize {
    if k == 0 { 153 } else { 0 }
}

// How many values a case has: those of e; in case 10 those of e''.
fn values_of(g: Setting) -> usize {
    if g.c == 10 {
        lent::entries(g.k, Count::Mixed)
    } else {
        lent::entries(g.k, Count::Secret)
    }
}

// The bytes that give n values.
fn bytes_of(k: u32, n: usize) -> usize {
    let m = lent::cut(n, 6912);
    match k {
        0 => 25 * m,
        1 => 4 * m,
        _ => 2 * m,
    }
}

fn noise_on(g: Setting, xs: &[u8], table: &[u64], out: &mut [i32]) -> Result<usize, Refusal> {
    sampling::noise(
        name(g, 6),
        part(xs, 0, longer(bytes_of(g.k, values_of(g)), g.c)),
        lent::front(table, longer(words_of(g.k), g.c)),
        out,
    )
}

fn noise_line(
    rt: &impl Print,
    g: Setting,
    xs: &[u8],
    table: &mut [u64],
    out: &mut [i32],
) -> io::Result<()> {
    make(table, g.c);
    let n = room(values_of(g), g.c, out.len());
    let answer = noise_on(g, xs, table, &mut out[0..n]);
    lines::field(rt, b"noise scheme=", g.k)?;
    lines::field(rt, b" case=", g.c)?;
    lines::told(rt, answer)?;
    lines::field(rt, b" values=", draw::check_values(lent::part(out, 0, n)))?;
    lines::text(rt, b"\n")
}

pub fn noise_case(rt: &impl Print, g: Setting, xs: &[u8]) -> io::Result<()> {
    let mut table = [0u64; 154];
    let mut out = [-1515870811i32; 6944];
    noise_line(rt, g, xs, &mut table, &mut out)
}

// The length of Expand's stream: in cases 2 to 7 it runs out.
fn stream_length(c: u32) -> usize {
    match c {
        0 | 1 => 4096,
        8 | 9 => 65537,
        _ => 2000,
    }
}

fn numbers_on(g: Setting, xs: &[u8], out: &mut [u32]) -> Result<usize, Refusal> {
    let call = g.call;
    match call {
        Call::Expand => sampling::expand(name(g, 15), part(xs, 0, stream_length(g.c)), out),
        _ => sampling::grow(name(g, 15), part(xs, 0, longer(32, g.c)), out),
    }
}

fn numbers_head(rt: &impl Print, g: Setting) -> io::Result<()> {
    let call = g.call;
    match call {
        Call::Expand => lines::field(rt, b"expand rule=", g.k),
        _ => lines::field(rt, b"grow rule=", g.k),
    }
}

fn numbers_line(rt: &impl Print, g: Setting, xs: &[u8], out: &mut [u32]) -> io::Result<()> {
    let n = room(1024, g.c, out.len());
    let answer = numbers_on(g, xs, &mut out[0..n]);
    numbers_head(rt, g)?;
    lines::field(rt, b" case=", g.c)?;
    lines::told(rt, answer)?;
    lines::field(rt, b" numbers=", draw::check_numbers(front(out, n)))?;
    lines::text(rt, b"\n")
}

pub fn numbers_case(rt: &impl Print, g: Setting, xs: &[u8]) -> io::Result<()> {
    let mut out = [2779096485u32; 1056];
    numbers_line(rt, g, xs, &mut out)
}

fn hash_length(c: u32) -> usize {
    match c {
        8 | 9 => 65537,
        _ => 200,
    }
}

fn hash_on(g: Setting, xs: &[u8], out: &mut [u8]) -> Result<usize, Refusal> {
    let call = g.call;
    match call {
        Call::Shake128 => hashing::shake128(part(xs, 0, hash_length(g.c)), out),
        _ => hashing::sha3_256(part(xs, 0, hash_length(g.c)), out),
    }
}

fn hash_head(rt: &impl Print, g: Setting) -> io::Result<()> {
    let call = g.call;
    match call {
        Call::Shake128 => lines::field(rt, b"shake128 case=", g.c),
        _ => lines::field(rt, b"sha3_256 case=", g.c),
    }
}

fn hash_line(rt: &impl Print, g: Setting, xs: &[u8], out: &mut [u8]) -> io::Result<()> {
    let n = room(32, g.c, out.len());
    let answer = hash_on(g, xs, &mut out[0..n]);
    hash_head(rt, g)?;
    lines::told(rt, answer)?;
    lines::summed(rt, b" bytes=", out, n)?;
    lines::text(rt, b"\n")
}

pub fn hash_case(rt: &impl Print, g: Setting, xs: &[u8]) -> io::Result<()> {
    let mut out = [165u8; 64];
    hash_line(rt, g, xs, &mut out)
}
