// The words of a line: docs/VECTORS.md, "A line".
use crate::{draw, lent};
use bench::Compared;
use finish::FinishCounts;
use lists::Peak;
use refusals::Refusal;
use reply::ReplyCounts;
use std::io;

pub fn text(rt: &impl Print, t: &[u8]) -> io::Result<()> {
    rt.write_all(t)
}

pub fn field(rt: &impl Print, name: &[u8], n: u32) -> io::Result<()> {
    text(rt, name)?;
    print!(rt; "{n}")
}

fn count(rt: &impl Print, name: &[u8], n: usize) -> io::Result<()> {
    text(rt, name)?;
    print!(rt; "{n}")
}

// The checksum of the first n bytes.
pub fn summed(rt: &impl Print, name: &[u8], xs: &[u8], n: usize) -> io::Result<()> {
    field(rt, name, draw::check_bytes(lent::part(xs, 0, n)))
}

fn accepted(rt: &impl Print, name: &[u8], n: usize) -> io::Result<()> {
    text(rt, b" refusal=0 place=0")?;
    count(rt, name, n)
}

fn refused(rt: &impl Print, r: Refusal, rest: &[u8]) -> io::Result<()> {
    field(rt, b" refusal=", r.number())?;
    count(rt, b" place=", r.place())?;
    text(rt, rest)
}

// What a call with one output says.
pub fn told(rt: &impl Print, answer: Result<usize, Refusal>) -> io::Result<()> {
    match answer {
        Ok(n) => accepted(rt, b" written=", n),
        Err(r) => refused(rt, r, b" written=0"),
    }
}

pub fn told_reply(rt: &impl Print, answer: Result<ReplyCounts, Refusal>) -> io::Result<()> {
    match answer {
        Ok(n) => {
            accepted(rt, b" message_written=", n.message)?;
            count(rt, b" key_written=", n.key)?;
            count(rt, b" digest_written=", n.digest)
        }
        Err(r) => { refused(rt, r, b" message_written=0 key_written=0 digest_written=0") }
    }
}

// The slack used and its index; both are 0 after a refusal.
fn used(rt: &impl Print, slack: Peak) -> io::Result<()> {
    field(rt, b" slack=", slack.most)?;
    count(rt, b" slack_index=", slack.at)
}

pub fn told_finish(rt: &impl Print, answer: Result<FinishCounts, Refusal>) -> io::Result<()> {
    match answer {
        Ok(n) => {
            accepted(rt, b" key_written=", n.key)?;
            count(rt, b" digest_written=", n.digest)?;
            used(rt, n.slack)
        }
        Err(r) => {
            refused(
                rt,
                r,
                b" key_written=0 digest_written=0 slack=0 slack_index=0",
            )
        }
    }
}

fn agreed(rt: &impl Print, differ: usize, slack: Peak) -> io::Result<()> {
    accepted(rt, b" differ=", differ)?;
    used(rt, slack)
}

// The first differing bit counts from 1, 0 where the keys agree.
pub fn told_bench(rt: &impl Print, answer: Result<Compared, Refusal>) -> io::Result<()> {
    match answer {
        Ok(n) => agreed(rt, n.differ.map_or(0, |i| i.wrapping_add(1)), n.slack),
        Err(r) => refused(rt, r, b" differ=0 slack=0 slack_index=0"),
    }
}
