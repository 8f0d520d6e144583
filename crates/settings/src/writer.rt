// Writing: the tests in their order, then the lines one behind the other.
ghost use Rattle.std.specs.Prelude.{◌≡◌, ◌+◌, ◌≤◌, length};
ghost use Rattle.refusals.specs.Refusals.{◌then◌};
ghost use Rattle.text.specs.Steps.{Written};
ghost use Rattle.settings.specs.Settings.{setup_of, label_line, text_of};
ghost use Rattle.settings.specs.Steps.{size_of};
ghost use Rattle.settings.specs.Calls.{scheme_known, rule_known, allowed, write_tests_lem};

use refusals::Refusal;
use schemes::Scheme;

// The scheme, then the rule.
fn known(scheme: u32, rule: u32) -> Result<(), Refusal>
    ensures { result ≡ scheme_known scheme then rule_known rule }
{
    Scheme::try_from(scheme)?;
    noise::rule_of(rule).ok_or(Refusal::NoRule)?;
    Ok(())
}

// Each byte of the label is a capital letter or a digit.
#[tactic(auto, unfolding(crate::specs::Calls::allowed))]
fn label_in(label: &[u8]) -> Result<(), Refusal>
    ensures { result ≡ allowed label.now }
{
    if crate::count_letters(label) < label.len() {
        Err(Refusal::Misfit)
    } else {
        Ok(())
    }
}

// How long the text with a label of n bytes is: three lines of 26 bytes, and 7 bytes beside a label.
fn size(n: usize) -> usize
    requires { n ≤ 16 }
    ensures { result ≡ size_of n }
{
    if n == 0 { 26 } else { 33 + n }
}

// The text's length is known once the scheme, the rule and the label's length are.
pub(crate) fn write_tests(scheme: u32, rule: u32, label: &[u8], room: usize) -> Result<(), Refusal>
    ensures { result ≡ write_tests_lem (setup_of scheme rule label.now) room }
{
    known(scheme, rule)?;
    refusals::length_up_to(label.len(), 16)?;
    refusals::room_for(room, size(label.len()))?;
    label_in(label)
}

// The label's line, where there is a label.
fn write_label(label: &[u8], out: &mut [u8], at: usize) -> usize
    requires { at + length (label_line label.now) ≤ length out.old }
    ensures { Written at (label_line label.now) out.old out.new result }
{
    if label.is_empty() {
        return at;
    }
    let k = text::write_text(b"label=", out, at);
    let end = text::write_text(label, out, k);
    text::write_text(b"\n", out, end)
}

pub(crate) fn write_lines(scheme: u32, rule: u32, label: &[u8], out: &mut [u8]) -> usize
    requires { length (text_of (setup_of scheme rule label.now)) ≤ length out.old }
    ensures { Written 0 (text_of (setup_of scheme rule label.now)) out.old out.new result }
{
    let i = text::write_line(b"format=", crate::format_of(label.len()), out, 0);
    let j = text::write_line(b"scheme=", scheme as u64, out, i);
    let k = text::write_line(b"rule=", rule as u64, out, j);
    write_label(label, out, k)
}
