// Noise, Expand and Grow: values and public numbers from bytes that the caller lends (01, "Noise" and "The NewHope transform"; 02, requests m, g and c). None has
// a `requires`: each ends with an answer or a numbered refusal, given exactly when its condition holds; the whole output is zeroed first.

#![tactic(auto)]

ghost use Rattle.std.specs.Prelude.{◌≡◌, length, replicate};
ghost use Rattle.schemes.specs.Schemes.{scheme_of_lem};
ghost use Rattle.refusals.specs.Seen.{told, seen};
ghost use Rattle.noise.specs.Expand.{rule_of_lem};
ghost use Rattle.sampling.specs.Noise.{noise, noise_result};
ghost use Rattle.sampling.specs.Expand.{expand_result, grow_result};

mod sampler;

use noise::RuleName;
use refusals::Refusal;
use schemes::Scheme;

// Noise: scheme, bytes, table. The values that the bytes give: 25 bytes a value in BCNS, by the table; four in NewHope and two in Frodo, which lend an empty
// one.
pub fn noise(scheme: u32, bytes: &[u8], table: &[u64], out: &mut [i32]) -> Result<usize, Refusal>
    ensures { seen (told result) out.new ≡ noise_result (scheme_of_lem scheme) (noise bytes.now table.now) (length out.old) }
{
    out.fill(0);
    let s = Scheme::try_from(scheme)?;
    sampler::noise_in(s, bytes, table, out)
}

// The rule that a number names. The output is zeroed first, so that whatever ends a call leaves zeros.
fn named(rule: u32, numbers: &mut [u32]) -> Option<RuleName>
    ensures value { (result ≡ rule_of_lem rule) × (numbers.new ≡ replicate (length numbers.old) 0) }
    ensures numbers_after { numbers.new ≡ replicate (length numbers.new) 0 }
{
    numbers.fill(0);
    noise::rule_of(rule)
}

// Expand: rule, stream. The first 1,024 numbers that the rule takes from it.
pub fn expand(rule: u32, stream: &[u8], out: &mut [u32]) -> Result<usize, Refusal>
    ensures { seen (told result) out.new ≡ expand_result (rule_of_lem rule) stream.now (length out.old) }
{
    let name = named(rule, out).ok_or(Refusal::NoRule)?;
    sampler::expand_by(name, stream, out)
}

// Grow: rule, seed. The first 1,024 numbers that the rule takes from the blocks of SHAKE-128 of the seed.
pub fn grow(rule: u32, seed: &[u8], out: &mut [u32]) -> Result<usize, Refusal>
    ensures { seen (told result) out.new ≡ grow_result (rule_of_lem rule) seed.now (length out.old) }
{
    let name = named(rule, out).ok_or(Refusal::NoRule)?;
    sampler::grow_by(name, seed, out)
}
