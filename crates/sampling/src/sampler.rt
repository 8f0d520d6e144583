// Noise, Expand and Grow, once the scheme or the rule is known and the output holds zeros: the tests in 01's order, then the work of the crates `noise`
// and `bcns_noise` into the part of the output that the answer takes.
ghost use Rattle.std.specs.Prelude.{Some};
ghost use Rattle.std.specs.Prelude.{◌≡◌, ◌++◌, ◌*◌, ◌/◌, ◌%◌, ◌≤◌, ◌<◌, length, drop, replicate, pos};
ghost use Rattle.schemes.specs.Schemes.{family_of, by_family};
ghost use Rattle.refusals.specs.Refusals.{pass, table_in_lem};
ghost use Rattle.refusals.specs.Seen.{told, seen};
ghost use Rattle.bcns_noise.specs.Noise.{first_not_above_lem};
ghost use Rattle.sponge.specs.Sponge.{shake128};
ghost use Rattle.sampling.specs.Noise.{noise, length_either_lem, noise_tests_lem, noise_values_lem, noise_result};
ghost use Rattle.sampling.specs.Expand.{expand_result, grow_result};
ghost use Rattle.sampling.specs.Steps.{noise_sizes_lem, expand_sizes_lem, grow_sizes_lem};

use noise::{FrodoSet, RuleName};
use refusals::Refusal;
use schemes::{Family, NewHope, Scheme};

// An input's length is one of two.
#[tactic(auto, unfolding(crate::specs::Noise::length_either_lem))]
fn length_either(m: usize, x: usize, y: usize) -> Result<(), Refusal>
    ensures { result ≡ length_either_lem m x y }
{
    if m == x {
        return Ok(());
    }
    refusals::length_is(m, y)
}

// The tests of lengths, where a value takes so many bytes and the table so many words.
fn noise_sizes(
    s: Scheme,
    each: usize,
    words: usize,
    bytes: &[u8],
    table: &[u64],
    room: usize,
) -> Result<(), Refusal>
    requires { (0 < each) × (each ≤ 25) }
    ensures { result ≡ noise_sizes_lem s each words (noise bytes.now table.now) room }
{
    let f = s.fixed();
    length_either(bytes.len(), each * f.noise, each * f.mixed)?;
    refusals::length_is(table.len(), words)?;
    refusals::room_for(room, bytes.len() / each)
}

// Each entry of the table is above its forerunner.
fn table_ascends(table: &[u64]) -> Result<(), Refusal>
    ensures { result ≡ table_in_lem (first_not_above_lem table.now) 51 }
{
    refusals::table_in(bcns_noise::first_not_above(table), 51)
}

// BCNS alone has a table, 51 entries of three words.
fn noise_tests(s: Scheme, bytes: &[u8], table: &[u64], room: usize) -> Result<(), Refusal>
    ensures { result ≡ noise_tests_lem (Some s) (noise bytes.now table.now) room }
{
    match s.family() {
        Family::Bcns => {
            noise_sizes(s, 25, 153, bytes, table, room)?;
            table_ascends(table)
        }
        Family::NewHope => noise_sizes(s, 4, 0, bytes, table, room),
        Family::Frodo => noise_sizes(s, 2, 0, bytes, table, room),
    }
}

// How many values the bytes give, whatever the table.
fn noise_count(s: Scheme, bytes: &[u8]) -> usize
    ensures { result ≡ length bytes.now / by_family (family_of s) 25 4 2 }
{
    match s.family() {
        Family::Bcns => bytes.len() / 25,
        Family::NewHope => bytes.len() / 4,
        Family::Frodo => bytes.len() / 2,
    }
}

// The values, into the part that they fill.
fn noise_fill(s: Scheme, bytes: &[u8], table: &[u64], out: &mut [i32])
    requires { (length bytes.now ≡ by_family (family_of s) 25 4 2 * length out.old) × (length table.now ≡ by_family (family_of s) 153 0 0) }
    ensures { out.new ≡ noise_values_lem (Some s) (noise bytes.now table.now) }
{
    match s {
        Scheme::Bcns => bcns_noise::values(table, bytes, out),
        Scheme::NewHope => noise::newhope(bytes, out),
        Scheme::Challenge => noise::frodo(FrodoSet::Challenge, bytes, out),
        Scheme::Classical => noise::frodo(FrodoSet::Classical, bytes, out),
        Scheme::Recommended => noise::frodo(FrodoSet::Recommended, bytes, out),
        Scheme::Paranoid => noise::frodo(FrodoSet::Paranoid, bytes, out),
    }
}

// The values at the front of the output, and how many they are.
fn noise_values(s: Scheme, bytes: &[u8], table: &[u64], out: &mut [i32]) -> usize
    requires { noise_tests_lem (Some s) (noise bytes.now table.now) (length out.old) ≡ pass }
    ensures value { result ≡ length (noise_values_lem (Some s) (noise bytes.now table.now)) }
    ensures out_value { out.new ≡ noise_values_lem (Some s) (noise bytes.now table.now) ++ drop result out.old }
{
    let n = noise_count(s, bytes);
    noise_fill(s, bytes, table, &mut out[..n]);
    n
}

// Noise in a known scheme.
pub(crate) fn noise_in(
    s: Scheme,
    bytes: &[u8],
    table: &[u64],
    out: &mut [i32],
) -> Result<usize, Refusal>
    requires { out.old ≡ replicate (length out.old) (pos 0) }
    ensures { seen (told result) out.new ≡ noise_result (Some s) (noise bytes.now table.now) (length out.old) }
{
    noise_tests(s, bytes, table, out.len())?;
    Ok(noise_values(s, bytes, table, out))
}

// Expand's tests of lengths.
fn expand_sizes(stream: &[u8], room: usize) -> Result<(), Refusal>
    ensures { result ≡ expand_sizes_lem stream.now room }
{
    refusals::length_up_to(stream.len(), 65536)?;
    refusals::room_for(room, NewHope::PUBLIC)
}

// Expand, where the lengths are allowed. Where the stream runs out, the numbers that were written are zeroed again.
fn expand_in(name: RuleName, stream: &[u8], out: &mut [u32]) -> Result<usize, Refusal>
    requires out_value { expand_sizes_lem stream.now (length out.old) ≡ pass }
    requires out_value_2 { out.old ≡ replicate (length out.old) 0 }
    ensures { seen (told result) out.new ≡ expand_result (Some name) stream.now (length out.old) }
{
    let n = noise::expand(name, stream, &mut out[..NewHope::PUBLIC]);
    if n < NewHope::PUBLIC {
        out[..NewHope::PUBLIC].fill(0);
        return Err(Refusal::RanOut(n));
    }
    Ok(n)
}

// Expand by a known rule.
pub(crate) fn expand_by(name: RuleName, stream: &[u8], out: &mut [u32]) -> Result<usize, Refusal>
    requires { out.old ≡ replicate (length out.old) 0 }
    ensures { seen (told result) out.new ≡ expand_result (Some name) stream.now (length out.old) }
{
    expand_sizes(stream, out.len())?;
    expand_in(name, stream, out)
}

// Grow's tests of lengths.
fn grow_sizes(seed: &[u8], room: usize) -> Result<(), Refusal>
    ensures { result ≡ grow_sizes_lem seed.now room }
{
    refusals::length_is(seed.len(), NewHope::SEED)?;
    refusals::room_for(room, NewHope::PUBLIC)
}

// The bytes that are made first, of whole words: 17 blocks by the low bits, too few for one seed in about 500, and 14 by the whole word, too few for none that
// is known.
fn first_bytes(name: RuleName) -> usize
    ensures { (result ≤ 24 * 168) × (result % 2 ≡ 0) }
{
    match name {
        RuleName::LowBits => 17 * 168,
        RuleName::WholeWord => 14 * 168,
    }
}

// As many bytes of the seed as are lent, then their numbers.
fn grow_from(
    name: RuleName,
    seed: &[u8],
    bytes: &mut [u8],
    out: &mut [u32],
) -> Result<usize, Refusal>
    requires out_value { (grow_sizes_lem seed.now (length out.old) ≡ pass) × (length bytes.old ≤ 24 * 168) }
    requires out_value_2 { out.old ≡ replicate (length out.old) 0 }
    ensures { seen (told result) out.new ≡ expand_result (Some name) (shake128 seed.now (length bytes.old)) (length out.old) }
{
    sponge::shake128(seed, bytes);
    expand_in(name, bytes, out)
}

// By the first bytes, and only where they run out by all. What decides is public, as the seed is.
fn grow_first(
    name: RuleName,
    seed: &[u8],
    bytes: &mut [u8],
    out: &mut [u32],
) -> Result<usize, Refusal>
    requires out_value { (grow_sizes_lem seed.now (length out.old) ≡ pass) × (length bytes.old ≡ 24 * 168) }
    requires out_value_2 { out.old ≡ replicate (length out.old) 0 }
    ensures { seen (told result) out.new ≡ grow_result (Some name) seed.now (length out.old) }
{
    let n = first_bytes(name);
    let a = grow_from(name, seed, &mut bytes[..n], out);
    if a.is_ok() {
        return a;
    }
    grow_from(name, seed, bytes, out)
}

// Lends `grow_first` room for 24 blocks of 168 bytes.
fn grow_in(name: RuleName, seed: &[u8], out: &mut [u32]) -> Result<usize, Refusal>
    requires out_value { grow_sizes_lem seed.now (length out.old) ≡ pass }
    requires out_value_2 { out.old ≡ replicate (length out.old) 0 }
    ensures { seen (told result) out.new ≡ grow_result (Some name) seed.now (length out.old) }
{
    let mut blocks = [0u8; 4032];
    grow_first(name, seed, &mut blocks, out)
}

// Grow by a known rule.
pub(crate) fn grow_by(name: RuleName, seed: &[u8], out: &mut [u32]) -> Result<usize, Refusal>
    requires { out.old ≡ replicate (length out.old) 0 }
    ensures { seen (told result) out.new ≡ grow_result (Some name) seed.now (length out.old) }
{
    grow_sizes(seed, out.len())?;
    grow_in(name, seed, out)
}
