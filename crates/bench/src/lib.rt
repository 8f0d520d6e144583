// Bench: both ends of an exchange on lent secrets, by the calls Offer, Reply and Finish, one after the other, and then the two keys bit by bit. It has no
// `requires`: it answers agree, differ with the first differing key bit, or the first refusal of Offer or Reply, and passes on the slack that Finish used.
// Messages, keys and digests stay inside.

#![tactic(auto)]

ghost use Rattle.std.specs.Prelude.{Some, ◌≡◌, ◌+◌, length};
ghost use Rattle.schemes.specs.Schemes.{fixed_of, scheme_of_lem};
ghost use Rattle.schemes.specs.declared.Scheme.TheVariants as variants;
ghost use Rattle.reply.specs.Reply as lent;
ghost use Rattle.finish.specs.Finish.{finish};
ghost use Rattle.agreement.specs.Run.{replying};
ghost use Rattle.bench.specs.Bench.{bench, bench_result, bench_told, bcns_told};
ghost use Rattle.bench.specs.Inside.{tests_from_reply, tests_from_offer, FromFinish, BothKeys};

mod compare;

use lists::Peak;
use refusals::Refusal;
use schemes::{LONGEST_OPENING, LONGEST_REPLY, Scheme};

// What Bench gives where nothing is refused: the first bit at which the keys differ, if there is one, and the slack used.
#[derive(Clone, Copy)]
pub struct Compared {
    pub differ: Option<usize>,
    pub slack: Peak,
}

// From Finish on: the initiator's key into peer.
fn from_finish(scheme: Scheme, reply: &[u8], s: &[i32], peer: &mut [u8]) -> Result<Peak, Refusal>
    requires { length peer.old ≡ (fixed_of scheme).key }
    ensures { FromFinish scheme (finish reply.now s.now) result peer.new }
{
    let mut digest = [0u8; 32];
    let counts = finish::finish(scheme.number(), reply, s, peer, &mut digest)?;
    Ok(counts.slack)
}

// From Reply on: the replier's key into the front half of keys, the initiator's into the other. Frodo Paranoid has the longest reply.
fn from_reply(
    scheme: Scheme,
    opening: &[u8],
    a: &[u32],
    s: &[i32],
    s1: &[i32],
    e1: &[i32],
    e2: &[i32],
    coins: &[u8],
    keys: &mut [u8],
) -> Result<Peak, Refusal>
    requires { length keys.old ≡ (fixed_of scheme).key + (fixed_of scheme).key }
    ensures { let x = lent.reply opening.now a.now s1.now e1.now e2.now coins.now in BothKeys scheme (tests_from_reply scheme x s.now) x s.now result keys.new }
{
    let f = scheme.fixed();
    let n = f.reply;
    let k = f.key;
    let mut reply = [0u8; LONGEST_REPLY];
    let mut digest = [0u8; 32];
    reply::reply(
        scheme.number(),
        opening,
        a,
        s1,
        e1,
        e2,
        coins,
        &mut reply[..n],
        &mut keys[..k],
        &mut digest,
    )?;
    from_finish(scheme, &reply[..n], s, &mut keys[k..])
}

// From Offer on. Frodo Paranoid has the longest opening.
fn from_offer(
    scheme: Scheme,
    a: &[u32],
    s: &[i32],
    e: &[i32],
    seed: &[u8],
    s1: &[i32],
    e1: &[i32],
    e2: &[i32],
    coins: &[u8],
    keys: &mut [u8],
) -> Result<Peak, Refusal>
    requires { length keys.old ≡ (fixed_of scheme).key + (fixed_of scheme).key }
    ensures { let x = bench a.now s.now e.now seed.now s1.now e1.now e2.now coins.now in BothKeys scheme (tests_from_offer scheme x) (replying scheme x) s.now result keys.new }
{
    let f = scheme.fixed();
    let m = f.opening;
    let mut opening = [0u8; LONGEST_OPENING];
    offer::offer(scheme.number(), a, s, e, seed, &mut opening[..m])?;
    from_reply(scheme, &opening[..m], a, s, s1, e1, e2, coins, keys)
}

// All of it: both ends, and then their keys.
fn run(
    scheme: Scheme,
    a: &[u32],
    s: &[i32],
    e: &[i32],
    seed: &[u8],
    s1: &[i32],
    e1: &[i32],
    e2: &[i32],
    coins: &[u8],
    keys: &mut [u8],
) -> Result<Compared, Refusal>
    requires { length keys.old ≡ (fixed_of scheme).key + (fixed_of scheme).key }
    ensures { bench_told result ≡ bench_result (Some scheme) (bench a.now s.now e.now seed.now s1.now e1.now e2.now coins.now) }
{
    let f = scheme.fixed();
    let k = f.key;
    let slack = from_offer(scheme, a, s, e, seed, s1, e1, e2, coins, keys)?;
    Ok(compare::both(k, keys, slack))
}

// `run` with room for two keys, of which BCNS has the longest.
fn bench_in(
    scheme: Scheme,
    a: &[u32],
    s: &[i32],
    e: &[i32],
    seed: &[u8],
    s1: &[i32],
    e1: &[i32],
    e2: &[i32],
    coins: &[u8],
) -> Result<Compared, Refusal>
    ensures { bench_told result ≡ bench_result (Some scheme) (bench a.now s.now e.now seed.now s1.now e1.now e2.now coins.now) }
{
    let f = scheme.fixed();
    let n = f.key + f.key;
    let mut keys = [0u8; 256];
    run(scheme, a, s, e, seed, s1, e1, e2, coins, &mut keys[..n])
}

// Both ends in BCNS. No keys are compared: whatever is not refused agrees (`NeverDiffer`).
pub fn bcns(
    a: &[u32],
    s: &[i32],
    e: &[i32],
    seed: &[u8],
    s1: &[i32],
    e1: &[i32],
    e2: &[i32],
    coins: &[u8],
) -> Result<Peak, Refusal>
    ensures { bcns_told result ≡ bench_result (Some variants.Bcns) (bench a.now s.now e.now seed.now s1.now e1.now e2.now coins.now) }
{
    let mut keys = [0u8; 256];
    from_offer(Scheme::Bcns, a, s, e, seed, s1, e1, e2, coins, &mut keys)
}

// By the scheme: BCNS has a bench of its own.
fn by_scheme(
    scheme: Scheme,
    a: &[u32],
    s: &[i32],
    e: &[i32],
    seed: &[u8],
    s1: &[i32],
    e1: &[i32],
    e2: &[i32],
    coins: &[u8],
) -> Result<Compared, Refusal>
    ensures { bench_told result ≡ bench_result (Some scheme) (bench a.now s.now e.now seed.now s1.now e1.now e2.now coins.now) }
{
    match scheme {
        Scheme::Bcns => {
            let slack = bcns(a, s, e, seed, s1, e1, e2, coins)?;
            Ok(Compared {
                differ: None,
                slack,
            })
        }
        _ => bench_in(scheme, a, s, e, seed, s1, e1, e2, coins),
    }
}

// Bench: both ends on lent secrets, from the public numbers a, the opener's s, e and seed, and the replier's s', e', e'' and coins.
pub fn bench(
    scheme: u32,
    a: &[u32],
    s: &[i32],
    e: &[i32],
    seed: &[u8],
    s1: &[i32],
    e1: &[i32],
    e2: &[i32],
    coins: &[u8],
) -> Result<Compared, Refusal>
    ensures { bench_told result ≡ bench_result (scheme_of_lem scheme) (bench a.now s.now e.now seed.now s1.now e1.now e2.now coins.now) }
{
    let known = Scheme::try_from(scheme)?;
    by_scheme(known, a, s, e, seed, s1, e1, e2, coins)
}
