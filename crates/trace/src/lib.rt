// The trace program as a function from the input's bytes to the output's, for every input: 02, request f. One pass over the lines, with three counters for
// each of the six schemes. No trace has more than 53,248 bytes and no answer more than 372, so a program reads 53,249 bytes at most to tell. Sums are exact:
// 2,048 numbers of ten digits are far below 2^64.

#![tactic(auto)]

ghost use Rattle.std.specs.Prelude.{◌≡◌, ◌+◌, ◌≤◌, ◌<◌, length, drop};
ghost use Rattle.text.specs.Answer.{Answers};
ghost use Rattle.text.specs.Steps.{Written};
ghost use Rattle.trace.specs.Trace.{two_in, block, answered};
ghost use Rattle.trace.specs.Steps.{Reads, added, summary_of, text_of};

// Two lines, which are an exchange: its scheme and slack, and the position behind them.
#[derive(Clone, Copy)]
struct Pair {
    scheme: usize,
    slack: u64,
    end: usize,
}

// Of a scheme: how many exchanges, the sum of their slacks, and the largest.
#[derive(Clone, Copy)]
struct Tally {
    count: u64,
    sum: u64,
    largest: u64,
}

impl Tally {
    // One exchange more.
    fn add(&mut self, slack: u64)
        requires { (self.old.count < 2048) × (self.old.sum ≤ 20480000000000) × (slack < 10000000000) }
        ensures { self.new ≡ added self.old slack }
    {
        self.count += 1;
        self.sum += slack;
        self.largest = self.largest.max(slack);
    }
}

// ---- reading

fn two_lines(s: &[u8], at: usize) -> Option<Pair>
    requires { at ≤ length s.now }
    ensures { Reads s.now result (two_in (drop at s.now)) }
{
    let (scheme, middle) = text::field(b"scheme=", s, at)?;
    if 5 < scheme {
        return None;
    }
    let (slack, end) = text::field(b"slack=", s, middle)?;
    Some(Pair {
        scheme: scheme as usize,
        slack,
        end,
    })
}

// ---- counting

// The tallies of the six schemes, of at most 2,048 exchanges, which are 4,096 lines; or other text.
fn count(s: &[u8]) -> Option<[Tally; 6]>
    ensures { text_of result ≡ answered s.now }
{
    let mut tallies = [Tally {
        count: 0,
        sum: 0,
        largest: 0,
    }; 6];
    let mut at = 0;
    for _ in 0..2048u32 {
        if s.len() <= at {
            return Some(tallies);
        }
        let pair = two_lines(s, at)?;
        tallies[pair.scheme].add(pair.slack);
        at = pair.end;
    }
    if at < s.len() {
        return None;
    }
    Some(tallies)
}

// ---- writing

fn write_block(scheme: u64, t: Tally, out: &mut [u8], at: usize) -> usize
    requires { at + length (block scheme t.count t.sum t.largest) ≤ length out.old }
    ensures { Written at (block scheme t.count t.sum t.largest) out.old out.new result }
{
    if t.count == 0 {
        return at;
    }
    let i = text::write_line(b"scheme=", scheme, out, at);
    let j = text::write_line(b"exchanges=", t.count, out, i);
    let k = text::write_line(b"sum=", t.sum, out, j);
    text::write_line(b"largest=", t.largest, out, k)
}

fn write_summary(tallies: [Tally; 6], out: &mut [u8]) -> usize
    requires { length (summary_of tallies) ≤ length out.old }
    ensures { Written 0 (summary_of tallies) out.old out.new result }
{
    let mut at = 0;
    for scheme in 0..6 {
        at = write_block(scheme as u64, tallies[scheme], out, at);
    }
    at
}

fn write(counted: Option<[Tally; 6]>, out: &mut [u8]) -> usize
    requires { length (text_of counted) ≤ length out.old }
    ensures { Written 0 (text_of counted) out.old out.new result }
{
    match counted {
        Some(tallies) => write_summary(tallies, out),
        None => text::write_line(b"refusal=", 8, out, 0),
    }
}

// The answer, with zeros behind it, and how many bytes it has.
pub fn answer(text: &[u8], out: &mut [u8; 372]) -> usize
    ensures { Answers 372 (answered text.now) result out.new }
{
    *out = [0; 372];
    write(count(text), out)
}
