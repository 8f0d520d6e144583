// The line program as a function from the input's bytes to the output's, for every input: 01, "The line program". The longest question has 60 bytes and
// the longest answer 22, so a program reads 61 bytes at most to tell. Reading goes by positions in the input, a line after the other; the decision gives a
// verdict and no text; then the verdict is written.

#![tactic(auto)]

ghost use Rattle.std.specs.Prelude.{◌≡◌, ◌*◌, ◌^◌, ◌≤◌, ◌<◌, length};
ghost use Rattle.schemes.specs.declared.Family.{Family};
ghost use Rattle.schemes.specs.Schemes.{bcns, family_of, fixed_of, scheme_of_lem};
ghost use Rattle.frodo.specs.Shown.{Round};
ghost use Rattle.text.specs.Answer.{Answers};
ghost use Rattle.text.specs.Steps.{Written};
ghost use Rattle.line.specs.Line.{asked, bcns_shown, frodo_shown, bcns_answer, frodo_answer, settled, answered};
ghost use Rattle.line.specs.Steps.{part_of, number_of, tested, lines_of, text_of};

use schemes::{Family, Scheme};

// q of BCNS.
const BCNS: u64 = schemes::Bcns::Q as u64;

// A question's numbers, and the position behind its four lines.
#[derive(Clone, Copy)]
struct Question {
    scheme: u64,
    coin: u64,
    v: u64,
    w: u64,
    end: usize,
}

// What is shown of a question that passes its tests.
#[derive(Clone, Copy)]
struct Shown {
    hint: u32,
    key: u32,
    peer: u32,
}

// The refusals with their numbers: a scheme that is not 0 or 2 to 5, v or w of q or more, other text, and a coin that is too large.
#[derive(Clone, Copy)]
enum Refusal {
    Unnamed = 1,
    Value = 4,
    Text = 8,
    Coin = 9,
}

impl Refusal {
    fn number(self) -> u64
        ensures { result ≡ number_of self }
    {
        self as u64
    }
}

// ---- reading

// The four lines that s begins with.
fn four_lines(s: &[u8]) -> Option<Question>
    ensures { part_of s.now result ≡ asked s.now }
{
    let (scheme, i) = text::field(b"scheme=", s, 0)?;
    let (coin, j) = text::field(b"coin=", s, i)?;
    let (v, k) = text::field(b"v=", s, j)?;
    let (w, end) = text::field(b"w=", s, k)?;
    Some(Question {
        scheme,
        coin,
        v,
        w,
        end,
    })
}

// ---- the decision

// The tests of a scheme with the largest coin and q, in their order.
fn test(most: u64, q: u64, coin: u64, v: u64, w: u64) -> Result<(), Refusal>
    ensures { result ≡ tested most q coin v w }
{
    if most < coin {
        return Err(Refusal::Coin);
    }
    if q <= v || q <= w {
        return Err(Refusal::Value);
    }
    Ok(())
}

fn show_bcns(coin: u32, v: u32, w: u32) -> Shown
    requires { (v < bcns.q) × (w < bcns.q) }
    ensures { lines_of result ≡ bcns_shown coin v w }
{
    let z = bcns::double(coin, v);
    let hint = bcns::hint(z);
    Shown {
        hint,
        key: bcns::key(z),
        peer: bcns::peer(hint, w),
    }
}

fn settle_bcns(coin: u64, v: u64, w: u64) -> Result<Shown, Refusal>
    ensures { text_of result ≡ bcns_answer coin v w }
{
    test(3, BCNS, coin, v, w)?;
    Ok(show_bcns(coin as u32, v as u32, w as u32))
}

// Over the interval i and the bits b.
fn show_frodo(i: u32, b: u32, v: u32, w: u32) -> Shown
    requires { Round i b × (v < i * 2 ^ b) × (w < i * 2 ^ b) }
    ensures { lines_of result ≡ frodo_shown i b v w }
{
    let hint = frodo::hint(i, b, v);
    Shown {
        hint,
        key: frodo::key(i, b, v),
        peer: frodo::peer(i, b, hint, w),
    }
}

fn settle_frodo(scheme: Scheme, coin: u64, v: u64, w: u64) -> Result<Shown, Refusal>
    requires { family_of scheme ≡ Family.Frodo }
    ensures { text_of result ≡ frodo_answer (fixed_of scheme) coin v w }
{
    let f = scheme.fixed();
    let i = frodo::interval(scheme);
    test(0, f.q as u64, coin, v, w)?;
    Ok(show_frodo(i, f.keybits, v as u32, w as u32))
}

// The scheme of a number that may have more than 32 bits.
fn named(no: u64) -> Option<Scheme>
    ensures { result ≡ scheme_of_lem no }
{
    let no = u32::try_from(no).ok()?;
    Scheme::try_from(no).ok()
}

fn settle(no: u64, coin: u64, v: u64, w: u64) -> Result<Shown, Refusal>
    ensures { text_of result ≡ settled no coin v w }
{
    let scheme = named(no).ok_or(Refusal::Unnamed)?;
    match scheme.family() {
        Family::Bcns => settle_bcns(coin, v, w),
        Family::NewHope => Err(Refusal::Unnamed),
        Family::Frodo => settle_frodo(scheme, coin, v, w),
    }
}

// Four lines and nothing behind them, or other text.
fn decide(s: &[u8]) -> Result<Shown, Refusal>
    ensures { text_of result ≡ answered s.now }
{
    let q = four_lines(s).ok_or(Refusal::Text)?;
    if q.end < s.len() {
        return Err(Refusal::Text);
    }
    settle(q.scheme, q.coin, q.v, q.w)
}

// ---- writing

fn write_shown(a: Shown, out: &mut [u8]) -> usize
    requires { length (lines_of a) ≤ length out.old }
    ensures { Written 0 (lines_of a) out.old out.new result }
{
    let i = text::write_line(b"hint=", a.hint as u64, out, 0);
    let j = text::write_line(b"key=", a.key as u64, out, i);
    text::write_line(b"peer=", a.peer as u64, out, j)
}

fn write(verdict: Result<Shown, Refusal>, out: &mut [u8]) -> usize
    requires { length (text_of verdict) ≤ length out.old }
    ensures { Written 0 (text_of verdict) out.old out.new result }
{
    match verdict {
        Ok(a) => write_shown(a, out),
        Err(refusal) => text::write_line(b"refusal=", refusal.number(), out, 0),
    }
}

// The answer, with zeros behind it, and how many bytes it has.
pub fn answer(input: &[u8], out: &mut [u8; 32]) -> usize
    ensures { Answers 32 (answered input.now) result out.new }
{
    *out = [0; 32];
    write(decide(input), out)
}
