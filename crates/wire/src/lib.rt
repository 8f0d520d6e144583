// The messages' bytes: 01, "Bytes on the wire". Where the parts of a message stand, bytes laid from numbers, seeds and hints, and taken apart again. Each
// function that lays or takes fills the whole of its last argument; the caller sees to the lengths.
#![tactic(auto)]

ghost use Rattle.std.specs.Prelude.{◌≡◌, ◌++◌, ◌^◌, length};
ghost use Rattle.schemes.specs.Schemes.{fixed_of};
ghost use Rattle.packing.specs.Packing.{packed};
ghost use Rattle.values.specs.Fit.{Counted};
ghost use Rattle.refusals.specs.Refusals.{received_in};
ghost use Rattle.wire.specs.Wire.{opening, packed_at, opened_in, replied_in, numbers_in, hints_in, coins_in, seed_at};

pub mod steps;

use refusals::Refusal;
use schemes::{Family, Scheme};

// Where the packed part of an opening begins, and where its seed does. Frodo's seed stands before its packed part, the others' behind it.
fn opening_starts(scheme: Scheme) -> (usize, usize)
    ensures { (result.0 ≡ packed_at scheme) × (result.1 ≡ seed_at scheme) }
{
    let f = scheme.fixed();
    match scheme.family() {
        Family::Bcns => (0, f.packed),
        Family::NewHope => (0, f.packed),
        Family::Frodo => (f.seed, 0),
    }
}

// An opening from its numbers and its seed.
pub fn lay_opening(scheme: Scheme, numbers: &[u32], seed: &[u8], out: &mut [u8])
    requires counted { Counted (fixed_of scheme).secret (fixed_of scheme).q numbers.now }
    requires seed_len { (length seed.now ≡ (fixed_of scheme).seed) × (length out.old ≡ (fixed_of scheme).opening) }
    ensures { out.new ≡ opening scheme seed.now (packed (fixed_of scheme).width numbers.now) }
{
    let f = scheme.fixed();
    let (start, from) = opening_starts(scheme);
    let end = start + f.packed;
    packing::pack(f.width, numbers, &mut out[start..end]);
    let to = from + f.seed;
    out[from..to].copy_from_slice(seed);
}

// The unpack step of Reply: the opening's numbers, whether each is below q, and whether its packed part is blank.
pub fn take_opening(scheme: Scheme, opening: &[u8], numbers: &mut [u32]) -> Result<(), Refusal>
    requires { (length opening.now ≡ (fixed_of scheme).opening) × (length numbers.old ≡ (fixed_of scheme).secret) }
    ensures value { result ≡ received_in (fixed_of scheme).q (opened_in scheme opening.now) (numbers_in scheme (opened_in scheme opening.now)) }
    ensures numbers_value { numbers.new ≡ numbers_in scheme (opened_in scheme opening.now) }
{
    let f = scheme.fixed();
    let (start, _) = opening_starts(scheme);
    let end = start + f.packed;
    refusals::take_message(f.width, f.q, &opening[start..end], numbers)
}

// The unpack step of Finish: the reply's numbers, whether each is below q, and whether its packed part is blank.
pub fn take_reply(scheme: Scheme, reply: &[u8], numbers: &mut [u32]) -> Result<(), Refusal>
    requires { (length reply.now ≡ (fixed_of scheme).reply) × (length numbers.old ≡ (fixed_of scheme).secret) }
    ensures value { result ≡ received_in (fixed_of scheme).q (replied_in scheme reply.now) (numbers_in scheme (replied_in scheme reply.now)) }
    ensures numbers_value { numbers.new ≡ numbers_in scheme (replied_in scheme reply.now) }
{
    let f = scheme.fixed();
    let k = f.packed;
    refusals::take_message(f.width, f.q, &reply[..k], numbers)
}

// The hints of a reply.
pub fn take_hints(scheme: Scheme, reply: &[u8], hints: &mut [u32])
    requires { (length reply.now ≡ (fixed_of scheme).reply) × (length hints.old ≡ (fixed_of scheme).mixed) }
    ensures { hints.new ≡ hints_in scheme reply.now }
{
    let f = scheme.fixed();
    let at = f.packed;
    let end = at + f.hint;
    packing::unpack(f.hintbits, &reply[at..end], hints);
}

// The coins of all groups; Frodo has none, which reads as zeros.
pub fn take_coins(scheme: Scheme, bytes: &[u8], coins: &mut [u32])
    requires { (length bytes.now ≡ (fixed_of scheme).coins) × (length coins.old ≡ (fixed_of scheme).groups) }
    ensures { coins.new ≡ coins_in scheme bytes.now }
{
    let f = scheme.fixed();
    let w = f.coinbits;
    if w == 0 {
        coins.fill(0);
    } else {
        packing::unpack(w, bytes, coins);
    }
}

// A reply from its numbers and its hints.
pub fn lay_reply(scheme: Scheme, numbers: &[u32], hints: &[u32], out: &mut [u8])
    requires counted { Counted (fixed_of scheme).secret (fixed_of scheme).q numbers.now }
    requires counted_2 { Counted (fixed_of scheme).mixed (2 ^ (fixed_of scheme).hintbits) hints.now × (length out.old ≡ (fixed_of scheme).reply) }
    ensures { out.new ≡ packed (fixed_of scheme).width numbers.now ++ packed (fixed_of scheme).hintbits hints.now }
{
    let f = scheme.fixed();
    let k = f.packed;
    packing::pack(f.width, numbers, &mut out[..k]);
    packing::pack(f.hintbits, hints, &mut out[k..]);
}

// The bytes of a key from its entries.
pub fn lay_key(scheme: Scheme, entries: &[u32], out: &mut [u8])
    requires { Counted (fixed_of scheme).groups (2 ^ (fixed_of scheme).keybits) entries.now × (length out.old ≡ (fixed_of scheme).key) }
    ensures { out.new ≡ packed (fixed_of scheme).keybits entries.now }
{
    let f = scheme.fixed();
    packing::pack(f.keybits, entries, out);
}
