// The refusals by number and place, and the tests that give them, each once for all calls: 01, "Refusal numbers and their order". A call's tests are a
// sequence of these in the order of its inputs, of which the first that fails ends the call. `named` begins Offer, Reply and Finish.

#![tactic(auto)]

ghost use Rattle.std.specs.Prelude.{◌≡◌, ℕ, ◌*◌, ◌≤◌, ◌<◌, length, replicate};
ghost use Rattle.schemes.specs.Schemes.{Names};
ghost use Rattle.lists.specs.First.{first_over_lem};
ghost use Rattle.packing.specs.Packing.{unpacked};
ghost use Rattle.refusals.specs.declared.Refusal.TheVariants.{NoScheme};
ghost use Rattle.refusals.specs.Refusals.{length_is_lem, length_up_to_lem, room_for_lem, in_turn, table_in_lem, publics_in_lem, not_blank_lem, received_in, secrets_in_lem, number_of, place_of};
ghost use Rattle.refusals.specs.Steps.{◌before◌};

use schemes::{Scheme, UnknownScheme};

#[derive(Clone, Copy, Debug, PartialEq, Eq)]
pub enum Refusal {
    NoScheme,
    BadLength,
    Short,
    PublicOver(usize),
    MessageOver(usize),
    SecretBeyond(usize),
    RanOut(usize),
    Misfit,
    OutOfStage,
    OutOfTurn,
    NoRule,
    NewerFormat,
    NoStudio,
    Blank,
    NotAscending(usize),
}

impl Refusal {
    pub fn number(self) -> u32
        ensures { result ≡ number_of self }
    {
        match self {
            Refusal::NoScheme => 1,
            Refusal::BadLength => 2,
            Refusal::Short => 3,
            Refusal::PublicOver(_) => 4,
            Refusal::MessageOver(_) => 5,
            Refusal::SecretBeyond(_) => 6,
            Refusal::RanOut(_) => 7,
            Refusal::Misfit => 8,
            Refusal::OutOfStage => 10,
            Refusal::OutOfTurn => 11,
            Refusal::NoRule => 12,
            Refusal::NewerFormat => 15,
            Refusal::NoStudio => 16,
            Refusal::Blank => 17,
            Refusal::NotAscending(_) => 18,
        }
    }

    pub fn place(self) -> usize
        ensures { result ≡ place_of self }
    {
        match self {
            Refusal::PublicOver(k) => k,
            Refusal::MessageOver(k) => k,
            Refusal::SecretBeyond(k) => k,
            Refusal::RanOut(k) => k,
            Refusal::NotAscending(k) => k,
            _ => 0,
        }
    }
}

impl From<UnknownScheme> for Refusal {
    ghost from_gives = { λ _ r. r ≡ NoScheme };

    fn from(_unknown: UnknownScheme) -> Refusal {
        Refusal::NoScheme
    }
}

// The scheme that a number names. The output, a call's last, is zeroed first, so that whatever ends the call leaves zeros.
pub fn named(scheme: u32, out: &mut [u8]) -> Result<Scheme, UnknownScheme>
    ensures value { Names scheme result × (out.new ≡ replicate (length out.old) 0) }
    ensures out_value { out.new ≡ replicate (length out.new) 0 }
{
    out.fill(0);
    Scheme::try_from(scheme)
}

// An input's length is the fixed one.
pub fn length_is(m: usize, n: usize) -> Result<(), Refusal>
    ensures { result ≡ length_is_lem m n }
{
    if m == n {
        Ok(())
    } else {
        Err(Refusal::BadLength)
    }
}

// An input's length is at most what is allowed.
pub fn length_up_to(m: usize, n: usize) -> Result<(), Refusal>
    ensures { result ≡ length_up_to_lem m n }
{
    if m <= n {
        Ok(())
    } else {
        Err(Refusal::BadLength)
    }
}

// An output buffer has room for the answer.
pub fn room_for(room: usize, n: usize) -> Result<(), Refusal>
    ensures { result ≡ room_for_lem room n }
{
    if n <= room {
        Ok(())
    } else {
        Err(Refusal::Short)
    }
}

// A part or an end comes in its turn.
pub fn in_turn(has: bool) -> Result<(), Refusal>
    ensures { result ≡ in_turn has }
{
    if has { Ok(()) } else { Err(Refusal::OutOfTurn) }
}

// Each of a table's n entries is above its forerunner; `at` is the first that is not, or n.
pub fn table_in(at: usize, n: usize) -> Result<(), Refusal>
    ensures { result ≡ table_in_lem at n }
{
    if at < n {
        Err(Refusal::NotAscending(at))
    } else {
        Ok(())
    }
}

// No lent public number is q or more; `at` is the first that is, or how many there are.
pub fn publics_at(at: usize, xs: &[u32]) -> Result<(), Refusal>
    ensures { (q : ℕ) → at ≡ first_over_lem q xs.now → result ≡ publics_in_lem q xs.now }
{
    if at < xs.len() {
        Err(Refusal::PublicOver(at))
    } else {
        Ok(())
    }
}

// No lent public number is q or more, where the first that is has still to be found.
pub fn publics_in(q: u32, xs: &[u32]) -> Result<(), Refusal>
    ensures { result ≡ publics_in_lem q xs.now }
{
    publics_at(lists::first_over(q, xs), xs)
}

// No lent public number is q or more, ahead of a verdict that stands already: where that is no refusal the numbers are not looked at.
pub fn publics_before(w: Result<(), Refusal>, q: u32, xs: &[u32]) -> Result<(), Refusal>
    ensures { result ≡ publics_in_lem q xs.now before w }
{
    if let Err(_) = w {
        publics_in(q, xs)?;
    }
    w
}

// No secret or noise value lies beyond the bound.
pub fn secrets_in(bound: u32, s: &[i32]) -> Result<(), Refusal>
    ensures { result ≡ secrets_in_lem bound s.now }
{
    let at = lists::first_beyond(bound, s);
    if at < s.len() {
        Err(Refusal::SecretBeyond(at))
    } else {
        Ok(())
    }
}

// Numbers that are about to be packed and sent are not all 0.
pub fn not_blank(xs: &[u32]) -> Result<(), Refusal>
    ensures { result ≡ not_blank_lem xs.now }
{
    if blank::numbers(xs) {
        Err(Refusal::Blank)
    } else {
        Ok(())
    }
}

// Nor are the bytes of a part that has come.
fn part_not_blank(part: &[u8]) -> Result<(), Refusal>
    ensures { result ≡ not_blank_lem part.now }
{
    if blank::bytes(part) {
        Err(Refusal::Blank)
    } else {
        Ok(())
    }
}

// The unpack step: the message's numbers, whether each is below q, and then whether its part is blank.
pub fn take_message(w: u32, q: u32, bytes: &[u8], nums: &mut [u32]) -> Result<(), Refusal>
    requires { (0 < w) × (w ≤ 32) × (8 * length bytes.now ≡ w * length nums.old) }
    ensures value { result ≡ received_in q bytes.now (unpacked w (length nums.old) bytes.now) }
    ensures nums_after { nums.new ≡ unpacked w (length nums.old) bytes.now }
{
    packing::unpack(w, bytes, nums);
    let at = lists::first_over(q, nums);
    if at < nums.len() {
        return Err(Refusal::MessageOver(at));
    }
    part_not_blank(bytes)
}
