// What a call is lent in a case: docs/VECTORS.md. A part of a list is cut to what is there, and a store tests its index.
ghost use Rattle.std.specs.Prelude.{◌≤◌};

use crate::{Call, Setting, draw};
use schemes::{Fixed, Scheme};

// Where the lists begin in the values and in the bytes.
pub const S: usize = 0;

pub const E: usize = 6944;

pub const S1: usize = 13888;

pub const E1: usize = 20832;

pub const E2: usize = 27776;

pub const SEED: usize = 0;

pub const COINS: usize = 288;

pub const OPENING: usize = 576;

pub const REPLY: usize = 13584;

// What is counted in a scheme; s, e, s' and e' are equally long.
#[derive(Clone, Copy)]
pub enum Count {
    Public,
    Secret,
    Mixed,
    Seed,
    Coins,
    Opening,
    Reply,
    Packed,
    Key,
}

pub fn fixed(k: u32) -> Fixed {
    Scheme::try_from(k).unwrap_or(Scheme::Bcns).fixed()
}

pub fn entries(k: u32, what: Count) -> usize {
    let f = fixed(k);
    match what {
        Count::Public => f.public,
        Count::Secret => f.secret,
        Count::Mixed => f.mixed,
        Count::Seed => f.seed,
        Count::Coins => f.coins,
        Count::Opening => f.opening,
        Count::Reply => f.reply,
        Count::Packed => f.packed,
        Count::Key => f.key,
    }
}

// The scheme or the rule; in case 9 another number.
pub fn name(g: Setting, other: u32) -> u32 {
    if g.c == 9 { other } else { g.k }
}

// The length of an input of n; one more in cases 8 and 9.
pub fn longer(n: usize, c: u32) -> usize {
    match c {
        8 | 9 => n.wrapping_add(1),
        _ => n,
    }
}

pub fn length(g: Setting, what: Count) -> usize {
    longer(entries(g.k, what), g.c)
}

// The room for an answer of n, of what there is: 32 to spare in cases 1 to 6, one short from 7 to 9.
pub fn room(n: usize, c: u32, most: usize) -> usize
    ensures { result ≤ most }
{
    match c % 10 {
        0 => cut(n, most),
        1..=6 => cut(n.wrapping_add(32), most),
        _ => cut(n.wrapping_sub(1), most),
    }
}

pub fn room_for(g: Setting, what: Count, most: usize) -> usize
    ensures { result ≤ most }
{
    room(entries(g.k, what), g.c, most)
}

// n, or the most that there is.
pub fn cut(n: usize, most: usize) -> usize
    ensures { result ≤ most }
{
    n.min(most)
}

// The first n entries of a list, and n from an index on: as far as there are so many.
pub fn front<T>(xs: &[T], n: usize) -> &[T] {
    &xs[..cut(n, xs.len())]
}

pub fn part<T>(xs: &[T], at: usize, n: usize) -> &[T] {
    front(&xs[cut(at, xs.len())..], n)
}

// The seed of stream j of scheme k.
fn stream(k: u32, j: u32) -> u32 {
    if k < 100 {
        (100 * k).wrapping_add(j)
    } else {
        j
    }
}

fn draw_public(k: u32, a: &mut [u32]) {
    let n = cut(longer(entries(k, Count::Public), 8), a.len());
    let q = fixed(k).q;
    if 0 < q {
        draw::numbers(stream(k, 1), q, &mut a[0..n]);
    }
}

// Values of at most 1; in case 10 of at most the largest noise.
fn draw_values(g: Setting, values: &mut [i32]) {
    let b = if g.c == 10 { fixed(g.k).largest } else { 1 };
    if b < 100 {
        draw::values(stream(g.k, 2), b, values);
    }
}

// Reply, Finish and Bench go on with the bytes of Offer.
fn draw_bytes(g: Setting, bytes: &mut [u8]) {
    let call = g.call;
    match call {
        Call::Offer | Call::Noise => draw::bytes(stream(g.k, 3), bytes),
        Call::Reply | Call::Finish | Call::Bench => (),
        _ => draw::bytes(901, bytes),
    }
}

pub fn draw(g: Setting, a: &mut [u32], values: &mut [i32], bytes: &mut [u8]) {
    draw_public(g.k, a);
    draw_values(g, values);
    draw_bytes(g, bytes);
}
