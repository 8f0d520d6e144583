// Frodo's reconciliation, over the rounding interval i and the number b of key bits of an entry: 01, "Reconciliation".
// i is a multiple of 4 and i * 2^b, which is q, at most 65536, so every sum below fits 32 bits: 4w + 3i is the largest. i need not be a power of two here. In
// each scheme it is one, and the compiler knows it: where the code divides by i the archive shifts (`runs/secrets` looks for divisions).

#![tactic(auto)]

ghost use Rattle.std.specs.Prelude.{◌≡◌, ◌*◌, ◌^◌, ◌<◌, length};
ghost use Rattle.schemes.specs.Schemes.{fixed_of};
ghost use Rattle.lists.specs.Ranges.{Below};
ghost use Rattle.frodo.specs.Rounding.{interval, hint_of, key_of, peer_of, hints_of, keys_of, peers_of, slack_of, slacks_of};
ghost use Rattle.frodo.specs.Shown.{Round};

use lists::each::set_each;
use schemes::Scheme;

// The interval of a scheme.
pub fn interval(scheme: Scheme) -> u32
    ensures { result ≡ interval (fixed_of scheme) }
{
    let f = scheme.fixed();
    f.q >> f.keybits
}

// The hint of the replier's value v: which half of its interval v stands in.
#[tactic(auto, unfolding(crate::specs::Rounding::hint_of))]
pub fn hint(i: u32, b: u32, v: u32) -> u32
    requires { Round i b × (v < i * 2 ^ b) }
    ensures { result ≡ hint_of i v }
{
    2 * v / i % 2
}

// How many keys b bits hold. As a power of two it makes the remainders below a mask.
fn values(b: u32) -> u32
    requires { b < 32 }
    ensures { result ≡ 2 ^ b }
{
    1 << b
}

// The replier's key.
#[tactic(auto, using(crate::proofs::Room::room), unfolding(crate::specs::Rounding::key_of))]
pub fn key(i: u32, b: u32, v: u32) -> u32
    requires { Round i b × (v < i * 2 ^ b) }
    ensures { result ≡ key_of i b v }
{
    (2 * v + i) / (2 * i) % values(b)
}

// The initiator's key of w under the hint h: in place of a search for the nearest z its formula, which `Shown.antt` states.
#[tactic(auto, using(crate::proofs::Room::room, crate::proofs::Rule::formula), unfolding(crate::specs::Shown::formula_of))]
pub fn peer(i: u32, b: u32, h: u32, w: u32) -> u32
    requires { Round i b × (h < 2) × (w < i * 2 ^ b) }
    ensures { result ≡ peer_of i b h w }
{
    (4 * w + (1 + 2 * h) * i) / (4 * i) % values(b)
}

// The slack used (02f): how far w lies from the nearest value with the hint h. In place of a search its formula, which `Shown.antt` states: the place of w
// behind the start of a half interval with the other hint, and the way out of that half.
#[tactic(auto, using(crate::proofs::Room::room, crate::proofs::Away::slack_formula))]
pub fn slack(i: u32, b: u32, h: u32, w: u32) -> u32
    requires { Round i b × (h < 2) × (w < i * 2 ^ b) }
    ensures { result ≡ slack_of i b h w }
{
    numbers::way_out((w + (1 - h) * (i / 2)) % i, i / 2)
}

pub fn hints(i: u32, b: u32, v: &[u32], out: &mut [u32])
    requires { Round i b × Below (i * 2 ^ b) v.now × (length v.now ≡ length out.old) }
    ensures { out.new ≡ hints_of i v.now }
{
    set_each(out, |k, _| hint(i, b, v[k]));
}

pub fn keys(i: u32, b: u32, v: &[u32], out: &mut [u32])
    requires { Round i b × Below (i * 2 ^ b) v.now × (length v.now ≡ length out.old) }
    ensures { out.new ≡ keys_of i b v.now }
{
    set_each(out, |k, _| key(i, b, v[k]));
}

pub fn peers(i: u32, b: u32, hints: &[u32], w: &[u32], out: &mut [u32])
    requires round { Round i b × Below (i * 2 ^ b) w.now × (length w.now ≡ length out.old) }
    requires below { Below 2 hints.now × (length hints.now ≡ length w.now) }
    ensures { out.new ≡ peers_of i b hints.now w.now }
{
    set_each(out, |k, _| peer(i, b, hints[k], w[k]));
}

// In place: each value becomes its slack.
pub fn slacks(i: u32, b: u32, hints: &[u32], w: &mut [u32])
    requires round { Round i b × Below (i * 2 ^ b) w.old }
    requires below { Below 2 hints.now × (length hints.now ≡ length w.old) }
    ensures { w.new ≡ slacks_of i b hints.now w.old }
{
    set_each(w, |k, x| slack(i, b, hints[k], x));
}
