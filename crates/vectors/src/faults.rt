// The faults that lie in the lists: docs/VECTORS.md, "The cases". Each case has those of the case before, and adds its own.
use crate::lent::Count;
use crate::{Call, Setting, lent};

fn put<T: Copy>(xs: &mut [T], i: usize, x: T) {
    if i < xs.len() {
        xs[i] = x;
    }
}

// A list of bytes, from an index on.
pub fn put_bytes(from: &[u8], at: usize, xs: &mut [u8]) {
    for (i, x) in from.iter().enumerate() {
        put(xs, at.wrapping_add(i), *x);
    }
}

// Beyond the largest noise of every scheme, and 0 modulo q in all but BCNS: where all else is zero, the part to be sent is still blank.
const BEYOND: i32 = 402685952;

// Two entries in each of the lists s, e, s', e', e'': of list j the entries 40 - 10j and 50.
fn beyond(values: &mut [i32]) {
    for j in 0..5 {
        put(values, 6934 * j + 40, BEYOND);
        put(values, 6944 * j + 50, BEYOND);
    }
}

// Where the packed part of the message that a call takes begins; behind all bytes where it takes none. Only an opening of Frodo has its seed first.
fn packed_at(g: Setting) -> usize {
    let call = g.call;
    match call {
        Call::Reply => {
            if 1 < g.k {
                lent::OPENING + 16
            } else {
                lent::OPENING
            }
        }
        Call::Finish => lent::REPLY,
        _ => 65537,
    }
}

fn blank(at: usize, n: usize, bytes: &mut [u8]) {
    let from = lent::cut(at, bytes.len());
    let to = from + lent::cut(n, bytes.len() - from);
    bytes[from..to].fill(0);
}

// Four bytes in the middle of the packed part.
fn over(at: usize, n: usize, bytes: &mut [u8]) {
    put_bytes(b"\xff\xff\xff\xff", at.wrapping_add(n / 2), bytes);
}

fn public(n: usize, q: u32, a: &mut [u32]) {
    put(a, n / 2, q);
    put(a, n.wrapping_sub(1), q);
}

// A call's good case draws its lists; each further one adds its fault.
pub fn prepare(g: Setting, a: &mut [u32], values: &mut [i32], bytes: &mut [u8]) {
    let c = g.c;
    match c {
        0 | 10 => lent::draw(g, a, values, bytes),
        2 => values.fill(0),
        3 => beyond(values),
        4 => blank(packed_at(g), lent::entries(g.k, Count::Packed), bytes),
        5 => over(packed_at(g), lent::entries(g.k, Count::Packed), bytes),
        6 => public(lent::entries(g.k, Count::Public), lent::fixed(g.k).q, a),
        _ => (),
    }
}
