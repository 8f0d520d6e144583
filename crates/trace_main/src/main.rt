// The trace program: 02, request f. A trace has at most 53,248 bytes, so the first 53,249 bytes of the input tell its answer: `Enough` of
// `trace`'s `specs/Exactly.antt`. A read or a write that fails ends the program with its error.
#![tactic(auto)]

use std::io;

fn run(rt: &HostRuntime, input: &mut [u8]) -> io::Result<()> {
    let n = reading::read_full(&mut rt.stdin(), input)?;
    let mut out = [0u8; 372];
    let m = trace::answer(&input[..n], &mut out);
    rt.write_all(&out[..m])
}

fn main(rt: HostRuntime) -> io::Result<()> {
    // The array is long, and alone here: in `run` it would stand in every step of the proof.
    let mut input = [0u8; 53249];
    run(&rt, &mut input)
}
