// The line program: 01, "The line program". A question has at most 60 bytes, so the first 61 bytes of the input tell its answer: `Enough` of
// `line`'s `specs/Exactly.antt`. A read or a write that fails ends the program with its error.
#![tactic(auto)]

use std::io;

fn main(rt: HostRuntime) -> io::Result<()> {
    let mut input = [0u8; 61];
    let n = reading::read_full(&mut rt.stdin(), &mut input)?;
    let mut out = [0u8; 32];
    let m = line::answer(&input[..n], &mut out);
    rt.write_all(&out[..m])
}
