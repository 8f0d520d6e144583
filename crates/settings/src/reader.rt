// Reading, a line at a time. Each function takes the position that the one before it came to and gives the whole answer.
ghost use Rattle.std.specs.Prelude.{◌≡◌, ◌≤◌, length, drop};
ghost use Rattle.text.specs.Text.{scheme_name, field_in};
ghost use Rattle.settings.specs.Settings.{setup_of, letters, rule_name, well_spelled_lem, spelled_in, last_in, tail_in, rule_in, scheme_in};
ghost use Rattle.settings.specs.Calls.{stored, answer_of};

use crate::{Misfit, Settings};

fn found(scheme: u32, rule: u32, label: &[u8]) -> Settings
    requires { length label.now ≤ 16 }
    ensures { result ≡ stored (setup_of scheme rule label.now) }
{
    let n = label.len();
    let mut bytes = [0u8; 16];
    bytes[..n].copy_from_slice(label);
    Settings {
        scheme,
        rule,
        label: bytes,
        count: n,
    }
}

// Of n letters at the front of s: 1 to 16, then LF, and nothing behind.
#[tactic(auto, unfolding(crate::specs::Settings::well_spelled_lem))]
fn well_spelled(s: &[u8], n: usize) -> bool
    requires { n ≡ letters s.now }
    ensures { result ≡ well_spelled_lem s.now }
{
    1 <= n && n <= 16 && s.len() == n + 1 && s[n] == b'\n'
}

#[tactic(auto, unfolding(crate::specs::Settings::spelled_in))]
fn spelled(scheme: u32, rule: u32, s: &[u8]) -> Result<Settings, Misfit>
    ensures { result ≡ answer_of (spelled_in scheme rule s.now) }
{
    let n = crate::count_letters(s);
    if well_spelled(s, n) {
        Ok(found(scheme, rule, &s[..n]))
    } else {
        Err(Misfit::Other)
    }
}

// The label's line.
#[tactic(auto, unfolding(crate::specs::Settings::last_in))]
fn last_line(scheme: u32, rule: u32, s: &[u8], at: usize) -> Result<Settings, Misfit>
    requires { at ≤ length s.now }
    ensures { result ≡ answer_of (last_in scheme rule (drop at s.now)) }
{
    let t = &s[at..];
    if text::begins_with(b"label=", t) {
        spelled(scheme, rule, &t[6..])
    } else {
        Err(Misfit::Other)
    }
}

// What stands behind the rule, by the format.
#[tactic(auto, unfolding(crate::specs::Settings::tail_in, crate::specs::Settings::end_in))]
fn tail(format: u64, scheme: u32, rule: u32, s: &[u8], at: usize) -> Result<Settings, Misfit>
    requires { at ≤ length s.now }
    ensures { result ≡ answer_of (tail_in format scheme rule (drop at s.now)) }
{
    match format {
        1 => {
            if at < s.len() {
                Err(Misfit::Other)
            } else {
                Ok(found(scheme, rule, &s[at..]))
            }
        }
        2 => last_line(scheme, rule, s, at),
        _ => Err(Misfit::Other),
    }
}

// It and `scheme_line` stay two: each tests another number and hands on to another line.
fn rule_line(format: u64, scheme: u32, s: &[u8], at: usize) -> Result<Settings, Misfit>
    requires { at ≤ length s.now }
    ensures { result ≡ answer_of (rule_in format scheme (field_in rule_name (drop at s.now))) }
{
    let (rule, end) = text::field(b"rule=", s, at).ok_or(Misfit::Other)?;
    if crate::is_rule(rule) {
        tail(format, scheme, rule as u32, s, end)
    } else {
        Err(Misfit::Other)
    }
}

pub(crate) fn scheme_line(format: u64, s: &[u8], at: usize) -> Result<Settings, Misfit>
    requires { at ≤ length s.now }
    ensures { result ≡ answer_of (scheme_in format (field_in scheme_name (drop at s.now))) }
{
    let (scheme, end) = text::field(b"scheme=", s, at).ok_or(Misfit::Other)?;
    if crate::is_scheme(scheme) {
        rule_line(format, scheme as u32, s, end)
    } else {
        Err(Misfit::Other)
    }
}
