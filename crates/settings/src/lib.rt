// The settings of a box in a text store, for every input: 02, request h. Both readers are one function over the reader's own number, the highest format that it
// knows; the writer takes the oldest format that holds the settings. No public call has a `requires`.

#![tactic(auto)]

ghost use Rattle.std.specs.Prelude.{◌≡◌, length};
ghost use Rattle.refusals.specs.Seen.{told, seen};
ghost use Rattle.settings.specs.Settings.{setup_of, format_of, is_scheme_lem, is_rule_lem, not_allowed_lem, letters, reads};
ghost use Rattle.settings.specs.Calls.{answer_of, write_result, read_of, read_result, refusal_of, newer_in, read_told, read_seen};
ghost use Rattle.settings.specs.declared.Unread.TheVariants as unread;

mod reader;
mod writer;

use refusals::Refusal;

// The label stands in the first count bytes, with zeros behind it. It is no slice of the text, so that settings outlive it; there is no heap for it.
#[derive(Clone, Copy)]
pub struct Settings {
    pub scheme: u32,
    pub rule: u32,
    pub label: [u8; 16],
    pub count: usize,
}

// Why a text holds no settings for a reader: a newer format, by its number (refusal 15), or anything else (8).
#[derive(Clone, Copy, Debug, PartialEq, Eq)]
pub enum Misfit {
    Newer(u64),
    Other,
}

// The numbers of settings whose label was read into a lent room: how long it is, their format, and the rest.
#[derive(Clone, Copy)]
pub struct ReadCounts {
    pub label: usize,
    pub format: u64,
    pub scheme: u32,
    pub rule: u32,
}

// Why nothing was read into a lent room: the text holds no settings, or the room is shorter than the label (3).
#[derive(Clone, Copy, Debug, PartialEq, Eq)]
pub enum Unread {
    Misfit(Misfit),
    Short,
}

impl Unread {
    pub fn refusal(self) -> Refusal
        ensures { result ≡ refusal_of self }
    {
        match self {
            Unread::Misfit(Misfit::Newer(_)) => Refusal::NewerFormat,
            Unread::Misfit(Misfit::Other) => Refusal::Misfit,
            Unread::Short => Refusal::Short,
        }
    }

    // The format, which is told where it is newer, and else 0.
    pub fn format(self) -> u64
        ensures { result ≡ newer_in self }
    {
        match self {
            Unread::Misfit(Misfit::Newer(format)) => format,
            _ => 0,
        }
    }
}

impl From<Misfit> for Unread {
    ghost from_gives = { λ why r. r ≡ unread.Misfit why };

    fn from(why: Misfit) -> Unread {
        Unread::Misfit(why)
    }
}

// ---- what settings are

fn is_scheme(n: u64) -> bool
    ensures { result ≡ is_scheme_lem n }
{
    n <= 5
}

fn is_rule(n: u64) -> bool
    ensures { result ≡ is_rule_lem n }
{
    (n == 14) | (n == 16)
}

fn not_allowed(c: u8) -> bool
    ensures { result ≡ not_allowed_lem c }
{
    !(c.is_ascii_digit() | c.is_ascii_uppercase())
}

// How many capital letters and digits s begins with.
fn count_letters(s: &[u8]) -> usize
    ensures { result ≡ letters s.now }
{
    s.iter().position(|c| not_allowed(*c)).unwrap_or(s.len())
}

// The format of settings with a label of n bytes.
#[tactic(auto, unfolding(crate::specs::Settings::format_of))]
fn format_of(n: usize) -> u64
    ensures { result ≡ format_of n }
{
    if n == 0 { 1 } else { 2 }
}

// ---- the calls

// What a reader of that number makes of a text.
pub fn read(reader: u32, text: &[u8]) -> Result<Settings, Misfit>
    ensures { result ≡ answer_of (reads reader text.now) }
{
    let (format, end) = text::field(b"format=", text, 0).ok_or(Misfit::Other)?;
    if (reader as u64) < format {
        return Err(Misfit::Newer(format));
    }
    reader::scheme_line(format, text, end)
}

// What a reader of that number makes of a text, into a lent label: 15 or 8, then 3 for the label that was read. Whatever ends the call leaves zeros.
pub fn read_lent(reader: u32, text: &[u8], label: &mut [u8]) -> Result<ReadCounts, Unread>
    ensures { read_seen (read_told result) label.new ≡ read_result (read_of reader text.now) (length label.old) }
{
    label.fill(0);
    let found = read(reader, text)?;
    let n = found.count;
    if label.len() < n {
        return Err(Unread::Short);
    }
    let bytes = found.label;
    label[..n].copy_from_slice(&bytes[..n]);
    Ok(ReadCounts {
        label: n,
        format: format_of(n),
        scheme: found.scheme,
        rule: found.rule,
    })
}

// Write: scheme, rule, label. The text with zeros behind it, or zeros after a refusal: 1 scheme, 12 rule, 2 a label over 16 bytes, 3 an output too short, 8 a
// byte of the label that is not allowed.
pub fn write(scheme: u32, rule: u32, label: &[u8], out: &mut [u8]) -> Result<usize, Refusal>
    ensures { seen (told result) out.new ≡ write_result (setup_of scheme rule label.now) (length out.old) }
{
    out.fill(0);
    writer::write_tests(scheme, rule, label, out.len())?;
    Ok(writer::write_lines(scheme, rule, label, out))
}
