// Steps that Offer and Reply share with their calls by rows: the test of the replier's secrets, and messages and key from the values, where the part that is sent
// is not blank.
ghost use Rattle.std.specs.Prelude.{◌≡◌, ◌++◌, ◌^◌, length};
ghost use Rattle.schemes.specs.Schemes.{fixed_of};
ghost use Rattle.packing.specs.Packing.{packed};
ghost use Rattle.refusals.specs.Refusals.{not_blank_lem};
ghost use Rattle.refusals.specs.Steps.{Laid};
ghost use Rattle.values.specs.Fit.{Counted};
ghost use Rattle.values.specs.Keys as settled;
ghost use Rattle.wire.specs.Wire.{opening, coins_in};
ghost use Rattle.wire.specs.Steps.{reply_secrets_lem, Rooms, message_by, key_by};

use refusals::Refusal;
use schemes::Scheme;

// The tests of s', e' and e'', in this order.
pub fn reply_secrets(scheme: Scheme, s1: &[i32], e1: &[i32], e2: &[i32]) -> Result<(), Refusal>
    ensures { result ≡ reply_secrets_lem scheme s1.now e1.now e2.now }
{
    let f = scheme.fixed();
    refusals::secrets_in(f.largest, s1)?;
    refusals::secrets_in(f.largest, e1)?;
    refusals::secrets_in(f.largest, e2)
}

// The opening's bytes, of its numbers b. A blank part is refused before anything is written.
pub fn lay_numbers(scheme: Scheme, b: &[u32], seed: &[u8], out: &mut [u8]) -> Result<(), Refusal>
    requires counted { Counted (fixed_of scheme).secret (fixed_of scheme).q b.now }
    requires seed_len { (length seed.now ≡ (fixed_of scheme).seed) × (length out.old ≡ (fixed_of scheme).opening) }
    ensures value { result ≡ not_blank_lem (packed (fixed_of scheme).width b.now) }
    ensures laid { Laid result (opening scheme seed.now (packed (fixed_of scheme).width b.now)) out.old out.new }
{
    refusals::not_blank(b)?;
    crate::lay_opening(scheme, b, seed, out);
    Ok(())
}

// The hints and the entries of the key, of v; tosses, the coins as numbers, is room for what lies between.
fn settle(
    scheme: Scheme,
    coins: &[u8],
    v: &[u32],
    tosses: &mut [u32],
    hints: &mut [u32],
    entries: &mut [u32],
)
    requires counted { Counted (fixed_of scheme).mixed (fixed_of scheme).q v.now × (length coins.now ≡ (fixed_of scheme).coins) }
    requires rooms { Rooms scheme tosses.old hints.old entries.old }
    ensures hints_value { hints.new ≡ settled.hints scheme (coins_in scheme coins.now) v.now }
    ensures entries_value { entries.new ≡ settled.keys scheme (coins_in scheme coins.now) v.now }
{
    crate::take_coins(scheme, coins, tosses);
    values::settle::hints(scheme, tosses, v, hints);
    values::settle::keys(scheme, tosses, hints, v, entries);
}

// The message's bytes, of its numbers u and the hints. A blank part is refused before anything is written.
fn lay_message(scheme: Scheme, u: &[u32], hints: &[u32], message: &mut [u8]) -> Result<(), Refusal>
    requires counted { Counted (fixed_of scheme).secret (fixed_of scheme).q u.now }
    requires counted_2 { Counted (fixed_of scheme).mixed (2 ^ (fixed_of scheme).hintbits) hints.now × (length message.old ≡ (fixed_of scheme).reply) }
    ensures value { result ≡ not_blank_lem (packed (fixed_of scheme).width u.now) }
    ensures laid { Laid result (packed (fixed_of scheme).width u.now ++ packed (fixed_of scheme).hintbits hints.now) message.old message.new }
{
    refusals::not_blank(u)?;
    crate::lay_reply(scheme, u, hints, message);
    Ok(())
}

// Message and key, of u and v; tosses, hints and entries are room for what lies between.
pub fn lay_values(
    scheme: Scheme,
    u: &[u32],
    v: &[u32],
    coins: &[u8],
    tosses: &mut [u32],
    hints: &mut [u32],
    entries: &mut [u32],
    message: &mut [u8],
    key: &mut [u8],
) -> Result<(), Refusal>
    requires counted { Counted (fixed_of scheme).secret (fixed_of scheme).q u.now × Counted (fixed_of scheme).mixed (fixed_of scheme).q v.now }
    requires coins_len { (length coins.now ≡ (fixed_of scheme).coins) × Rooms scheme tosses.old hints.old entries.old }
    requires message_len { (length message.old ≡ (fixed_of scheme).reply) × (length key.old ≡ (fixed_of scheme).key) }
    ensures value { result ≡ not_blank_lem (packed (fixed_of scheme).width u.now) }
    ensures laid { Laid result (message_by scheme u.now v.now coins.now) message.old message.new }
    ensures laid_2 { Laid result (key_by scheme v.now coins.now) key.old key.new }
{
    settle(scheme, coins, v, tosses, hints, entries);
    lay_message(scheme, u, hints, message)?;
    crate::lay_key(scheme, entries, key);
    Ok(())
}
