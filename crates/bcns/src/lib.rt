// BCNS's reconciliation: 01, "Reconciliation"; q is that of `schemes`, and z lies in 0 .. 2q - 1. First one entry: z, its hint and its key bit at the replier,
// the bit of w and its slack at the initiator; then all of these over lists. That both ends get the same bit is in `specs/Shown.antt`.
// Nothing here divides by q or 2q (02b), and nothing branches on v, w or z, which are secrets: a test is a factor 0 or 1, or a bit.

#![tactic(auto)]

ghost use Rattle.std.specs.Prelude.{◌≡◌, ℕ, ◌*◌, ◌≤◌, ◌<◌, length, nat_abs};
ghost use Rattle.lists.specs.Ranges.{Below};
ghost use Rattle.bcns.specs.Rounding.{q, coin_of_lem, doubled, hint_of, key_of, peer_of, hints_of, keys_of, peers_of, slack_of, slacks_of};

use lists::each::set_each;

// q, 2q, the first and the last z whose key bit is 1, an eighth of the circle of w, and how many z of the hint 1 stand in a row; of the hint 0 one more.
const Q: u64 = schemes::Bcns::Q as u64;

const TWICE: u64 = 2 * Q;

const FIRST: u64 = (Q + 1) / 2;

const LAST: u64 = (3 * Q - 1) / 2;

const EIGHTH: u64 = (Q + 1) / 8;

const ROW: u64 = Q / 2;

// What two coin bits give: 0, 1 or -1.
#[tactic(auto, using(std::proofs::lemmas::Bool::Decides::nat_tests), unfolding(crate::specs::Rounding::coin_of_lem))]
fn coin_of(bits: u32) -> i64
    ensures { (result ≡ coin_of_lem bits) × (nat_abs result ≤ 1) }
{
    (bits == 2) as i64 - (bits == 3) as i64
}

// z of the replier's value v and its coin: 2v - c modulo 2q. For v = 0 and coin 2 that is the remainder of -1: so 2q is added first, and taken off where it
// was not wanted.
pub fn double(coin: u32, v: u32) -> u64
    requires { v < q }
    ensures value { result ≡ doubled coin v }
    ensures upper_bound { result < 2 * q }
{
    let z = ((2 * (v as u64) + TWICE) as i64 - coin_of(coin)) as u64;
    z - TWICE * ((z >= TWICE) as u64)
}

// The hint of z: it is 1 in the second and in the fourth of the four rows of z that have one hint and one key bit.
#[tactic(auto, using(std::proofs::lemmas::Bool::Decides::nat_tests), unfolding(crate::specs::Rounding::hint_of))]
pub fn hint(z: u64) -> u32
    requires { z < 2 * q }
    ensures { result ≡ hint_of z }
{
    (((FIRST <= z) & (z < Q)) | (LAST < z)) as u32
}

// The replier's key bit of z.
#[tactic(auto, unfolding(crate::specs::Rounding::key_of))]
pub fn key(z: u64) -> u32
    ensures { result ≡ key_of z }
{
    ((FIRST <= z) & (z <= LAST)) as u32
}

// The initiator's bit of w under the hint h: 01's rule as a formula (`Formula`). The sum stays below 3 * 2^31.
#[tactic(auto, using(crate::proofs::Formula::formula))]
pub fn peer(h: u32, w: u32) -> u32
    requires { (h < 2) × (w < q) }
    ensures { result ≡ peer_of h w }
{
    (((w as u64) + (1 + 2 * (h as u64)) * EIGHTH) / FIRST % 2) as u32
}

// The slack used (02f): how far 2w lies, around a circle of 2q, from the nearest z with the hint h. In place of a search its formula, which `Shown.antt`
// states: the place of 2w behind the start of a row of z with the other hint, and the way out of that row.
#[tactic(auto, using(crate::proofs::Away::slack_formula))]
pub fn slack(h: u32, w: u32) -> u32
    requires { (h < 2) × (w < q) }
    ensures { result ≡ slack_of h w }
{
    numbers::way_out(
        numbers::fold(2 * (w as u64) + (1 - (h as u64)) * ROW) as u32,
        ROW as u32 + h,
    )
}

pub fn hints(coins: &[u32], v: &[u32], out: &mut [u32])
    requires { Below q v.now × (length coins.now ≡ length v.now) × (length out.old ≡ length v.now) }
    ensures { out.new ≡ hints_of coins.now v.now }
{
    set_each(out, |k, _| hint(double(coins[k], v[k])));
}

pub fn keys(coins: &[u32], v: &[u32], out: &mut [u32])
    requires { Below q v.now × (length coins.now ≡ length v.now) × (length out.old ≡ length v.now) }
    ensures { out.new ≡ keys_of coins.now v.now }
{
    set_each(out, |k, _| key(double(coins[k], v[k])));
}

pub fn peers(hints: &[u32], w: &[u32], out: &mut [u32])
    requires { Below q w.now × Below 2 hints.now × (length hints.now ≡ length w.now) × (length out.old ≡ length w.now) }
    ensures { out.new ≡ peers_of hints.now w.now }
{
    set_each(out, |k, _| peer(hints[k], w[k]));
}

// In place: each value becomes its slack.
pub fn slacks(hints: &[u32], w: &mut [u32])
    requires { Below q w.old × Below 2 hints.now × (length hints.now ≡ length w.old) }
    ensures { w.new ≡ slacks_of hints.now w.old }
{
    set_each(w, |k, x| slack(hints[k], x));
}
