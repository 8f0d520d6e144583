// Lines of text as bytes: a name, '=', a number of 1 to 10 digits without a leading zero, LF, as 01's line program has them. Reading goes by positions in the
// input and gives a number and the position behind its line; writing goes by positions in a lent output and gives the position behind what it wrote.

#![tactic(auto)]

ghost use Rattle.std.specs.Prelude.{◌≡◌, ◌+◌, ◌-◌, ◌≤◌, length, drop};
ghost use Rattle.text.specs.Text.{run, value_of, well_formed_lem, begins, number_in, field_in, decimal, line};
ghost use Rattle.text.specs.Steps.{Reads, Written};

// ---- reading

// How many digits s begins with.
fn digits(s: &[u8]) -> usize
    ensures { result ≡ run s.now }
{
    s.iter()
        .position(|c| !c.is_ascii_digit())
        .unwrap_or(s.len())
}

// A digit's value. Below '0' it is 0, as in the definition, so that no caller owes that c is a digit.
fn digit(c: u8) -> u64
    ensures { (result ≡ c - 48) × (result ≤ 207) }
{
    u64::from(c.saturating_sub(b'0'))
}

// The number that at most ten digits make: below 23 * 10^10, whatever bytes they are.
fn value(s: &[u8]) -> u64
    requires { length s.now ≤ 10 }
    ensures { result ≡ value_of s.now 0 }
{
    let mut n = 0;
    for c in s {
        n = 10 * n + digit(*c);
    }
    n
}

// Of n digits at the front of s: 1 to 10, no leading zero unless 0, then LF.
fn well_formed(s: &[u8], n: usize) -> bool
    requires { n ≡ run s.now }
    ensures { result ≡ well_formed_lem s.now }
{
    if n < 1 {
        return false;
    }
    if 10 < n {
        return false;
    }
    if s.len() <= n {
        return false;
    }
    ((s[0] != b'0') | (n == 1)) & (s[n] == b'\n')
}

// The number at a position, and the position behind its line; or other text.
fn number(s: &[u8], at: usize) -> Option<(u64, usize)>
    requires { at ≤ length s.now }
    ensures { Reads s.now result (number_in (drop at s.now)) }
{
    let t = &s[at..];
    let n = digits(t);
    if well_formed(t, n) {
        Some((value(&t[..n]), at + n + 1))
    } else {
        None
    }
}

// Whether s begins with a label.
pub fn begins_with(label: &[u8], s: &[u8]) -> bool
    ensures { result ≡ begins label.now s.now }
{
    s.starts_with(label)
}

// The number of the line at a position, where it has that name, and the position behind the line.
pub fn field(label: &[u8], s: &[u8], at: usize) -> Option<(u64, usize)>
    requires { at ≤ length s.now }
    ensures { Reads s.now result (field_in label.now (drop at s.now)) }
{
    if begins_with(label, &s[at..]) {
        number(s, at + label.len())
    } else {
        None
    }
}

// ---- writing; the room asked for is the text's own length

// A number in decimal: its last digit behind all others.
fn write_number(n: u64, out: &mut [u8], at: usize) -> usize
    requires { at + length (decimal n) ≤ length out.old }
    ensures { Written at (decimal n) out.old out.new result }
{
    if n < 10 {
        out[at] = (48 + n) as u8;
        return at + 1;
    }
    let end = write_number(n / 10, out, at);
    out[end] = (48 + n % 10) as u8;
    end + 1
}

// A text as it is.
pub fn write_text(text: &[u8], out: &mut [u8], at: usize) -> usize
    requires { at + length text.now ≤ length out.old }
    ensures { Written at text.now out.old out.new result }
{
    let end = at + text.len();
    out[at..end].copy_from_slice(text);
    end
}

// A line: its label, a number, LF.
pub fn write_line(label: &[u8], n: u64, out: &mut [u8], at: usize) -> usize
    requires { at + length (line label.now n) ≤ length out.old }
    ensures { Written at (line label.now n) out.old out.new result }
{
    let k = write_text(label, out, at);
    let end = write_number(n, out, k);
    out[end] = b'\n';
    end + 1
}
