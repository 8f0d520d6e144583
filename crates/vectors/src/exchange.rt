// A line for a case of Offer, Reply, Finish or Bench. An output is fresh in each case, and is the front of its buffer that the case lends. The message of
// a good case is kept for the call that takes it.
use crate::faults::put_bytes;
use crate::lent::{Count, front, length, name, part, room, room_for};
use crate::{Setting, lent, lines};
use bench::Compared;
use refusals::Refusal;
use std::io;

fn head(rt: &impl Print, call: &[u8], g: Setting) -> io::Result<()> {
    lines::field(rt, call, g.k)?;
    lines::field(rt, b" case=", g.c)
}

fn keep(c: u32, message: &[u8], at: usize, xs: &mut [u8]) {
    if c % 10 == 0 {
        put_bytes(message, at, xs);
    }
}

fn offer_line(
    rt: &impl Print,
    g: Setting,
    a: &[u32],
    zs: &[i32],
    xs: &mut [u8],
    message: &mut [u8],
) -> io::Result<()> {
    let k = length(g, Count::Secret);
    let n = room_for(g, Count::Opening, message.len());
    let answer = offer::offer(
        name(g, 6),
        front(a, length(g, Count::Public)),
        part(zs, lent::S, k),
        part(zs, lent::E, k),
        part(xs, lent::SEED, length(g, Count::Seed)),
        &mut message[0..n],
    );
    head(rt, b"offer scheme=", g)?;
    lines::told(rt, answer)?;
    lines::summed(rt, b" message=", message, n)?;
    lines::text(rt, b"\n")?;
    keep(g.c, message, lent::OPENING, xs);
    Ok(())
}

pub fn offer_case(
    rt: &impl Print,
    g: Setting,
    a: &[u32],
    zs: &[i32],
    xs: &mut [u8],
) -> io::Result<()> {
    let mut message = [165u8; 13008];
    offer_line(rt, g, a, zs, xs, &mut message)
}

fn reply_line(
    rt: &impl Print,
    g: Setting,
    a: &[u32],
    zs: &[i32],
    xs: &mut [u8],
    message: &mut [u8],
    key: &mut [u8],
    digest: &mut [u8],
) -> io::Result<()> {
    let n = room_for(g, Count::Reply, message.len());
    let m = room_for(g, Count::Key, key.len());
    let d = room(32, g.c, digest.len());
    let k = length(g, Count::Secret);
    let answer = reply::reply(
        name(g, 6),
        part(xs, lent::OPENING, length(g, Count::Opening)),
        front(a, length(g, Count::Public)),
        part(zs, lent::S1, k),
        part(zs, lent::E1, k),
        part(zs, lent::E2, length(g, Count::Mixed)),
        part(xs, lent::COINS, length(g, Count::Coins)),
        &mut message[0..n],
        &mut key[0..m],
        &mut digest[0..d],
    );
    head(rt, b"reply scheme=", g)?;
    lines::told_reply(rt, answer)?;
    lines::summed(rt, b" message=", message, n)?;
    keys(rt, key, m, digest, d)?;
    keep(g.c, message, lent::REPLY, xs);
    Ok(())
}

pub fn reply_case(
    rt: &impl Print,
    g: Setting,
    a: &[u32],
    zs: &[i32],
    xs: &mut [u8],
) -> io::Result<()> {
    let mut message = [165u8; 13008];
    let mut key = [165u8; 160];
    let mut digest = [165u8; 64];
    reply_line(rt, g, a, zs, xs, &mut message, &mut key, &mut digest)
}

// The end of a line with a key and its digest.
fn keys(rt: &impl Print, key: &[u8], n: usize, digest: &[u8], d: usize) -> io::Result<()> {
    lines::summed(rt, b" key=", key, n)?;
    lines::summed(rt, b" digest=", digest, d)?;
    lines::text(rt, b"\n")
}

fn finish_line(
    rt: &impl Print,
    g: Setting,
    zs: &[i32],
    xs: &[u8],
    key: &mut [u8],
    digest: &mut [u8],
) -> io::Result<()> {
    let n = room_for(g, Count::Key, key.len());
    let d = room(32, g.c, digest.len());
    let reply = part(xs, lent::REPLY, length(g, Count::Reply));
    let s = part(zs, lent::S, length(g, Count::Secret));
    let answer = finish::finish(name(g, 6), reply, s, &mut key[0..n], &mut digest[0..d]);
    head(rt, b"finish scheme=", g)?;
    lines::told_finish(rt, answer)?;
    keys(rt, key, n, digest, d)
}

pub fn finish_case(rt: &impl Print, g: Setting, zs: &[i32], xs: &[u8]) -> io::Result<()> {
    let mut key = [165u8; 160];
    let mut digest = [165u8; 64];
    finish_line(rt, g, zs, xs, &mut key, &mut digest)
}

fn bench_on(g: Setting, a: &[u32], zs: &[i32], xs: &[u8]) -> Result<Compared, Refusal> {
    let n = length(g, Count::Secret);
    bench::bench(
        name(g, 6),
        front(a, length(g, Count::Public)),
        part(zs, lent::S, n),
        part(zs, lent::E, n),
        part(xs, lent::SEED, length(g, Count::Seed)),
        part(zs, lent::S1, n),
        part(zs, lent::E1, n),
        part(zs, lent::E2, length(g, Count::Mixed)),
        part(xs, lent::COINS, length(g, Count::Coins)),
    )
}

pub fn bench_case(rt: &impl Print, g: Setting, a: &[u32], zs: &[i32], xs: &[u8]) -> io::Result<()> {
    let answer = bench_on(g, a, zs, xs);
    head(rt, b"bench scheme=", g)?;
    lines::told_bench(rt, answer)?;
    lines::text(rt, b"\n")
}
