// What open and answer make of what they are lent: lengths by the scheme, noise values of random bytes, and numbers grown from a seed.
ghost use Rattle.std.specs.Prelude.{◌≡◌, ◌≤◌, length};
ghost use Rattle.schemes.specs.declared.Scheme.TheVariants as variants;
ghost use Rattle.refusals.specs.Refusals.{pass};
ghost use Rattle.noise.specs.Expand.{rule_of_lem};
ghost use Rattle.sampling.specs.Noise.{table_words};
ghost use Rattle.sampling.specs.Expand.{grow_numbers};
ghost use Rattle.exchange.specs.Random.{public_lent, secret_bytes, mixed_bytes, cut, ruled_in, table_order, grown};
ghost use Rattle.exchange.specs.Inside.{Draws, Drew};

use refusals::Refusal;
use schemes::{Family, Scheme};

// How many public numbers and words of a table are lent, and how many random bytes the values of s or e and those of e'' take.
#[derive(Clone, Copy)]
pub(crate) struct Takes {
    pub(crate) public: usize,
    pub(crate) table: usize,
    pub(crate) secret: usize,
    pub(crate) mixed: usize,
}

// A value takes 25 bytes in BCNS, 4 in NewHope and 2 in Frodo.
pub(crate) fn lengths(scheme: Scheme) -> Takes
    ensures public_value { (result.public ≡ public_lent scheme) × (result.table ≡ table_words scheme) }
    ensures secret_value { (result.secret ≡ secret_bytes scheme) × (result.mixed ≡ mixed_bytes scheme) }
{
    let f = scheme.fixed();
    match scheme.family() {
        Family::Bcns => Takes {
            public: f.public,
            table: 153,
            secret: 25 * f.noise,
            mixed: 25 * f.mixed,
        },
        Family::NewHope => Takes {
            public: 0,
            table: 0,
            secret: 4 * f.noise,
            mixed: 4 * f.mixed,
        },
        Family::Frodo => Takes {
            public: f.public,
            table: 0,
            secret: 2 * f.noise,
            mixed: 2 * f.mixed,
        },
    }
}

// Whether the number names a rule: 12 if it does not.
pub(crate) fn ruled(rule: u32) -> Result<(), Refusal>
    ensures { result ≡ ruled_in (rule_of_lem rule) }
{
    noise::rule_of(rule).ok_or(Refusal::NoRule)?;
    Ok(())
}

// NewHope's public numbers, grown from a seed. It is not inlined, so that its room for the blocks is given back before Offer or Reply runs.
#[inline(never)]
pub(crate) fn grow(rule: u32, seed: &[u8], numbers: &mut [u32]) -> Result<(), Refusal>
    requires { (ruled_in (rule_of_lem rule) ≡ pass) × (length seed.now ≡ 32) × (length numbers.old ≡ 1024) }
    ensures value { result ≡ grown variants.NewHope (rule_of_lem rule) seed.now }
    ensures numbers_value { result ≡ pass → numbers.new ≡ grow_numbers (rule_of_lem rule) seed.now }
{
    sampling::grow(rule, seed, numbers)?;
    Ok(())
}

// n noise values, of k random bytes from the place at on, laid at the front of out. A table that is not in order leaves zeros there.
pub(crate) fn draw(
    scheme: Scheme,
    n: usize,
    k: usize,
    at: usize,
    random: &[u8],
    table: &[u64],
    out: &mut [i32],
) -> Result<(), Refusal>
    requires { Draws scheme n k at random.now table.now × (n ≤ length out.old) }
    ensures value { result ≡ table_order scheme table.now }
    ensures drew { table_order scheme table.now ≡ pass → Drew scheme n table.now (cut at k random.now) out.old out.new }
{
    let end = at + k;
    sampling::noise(scheme.number(), &random[at..end], table, &mut out[..n])?;
    Ok(())
}
