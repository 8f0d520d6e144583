// Reply, once the scheme is known and all outputs hold zeros: lengths and rooms, then the opening, then the secrets; then the message's numbers, with the test of
// the public numbers, which the product reads once, and, where they are not all 0, message and key into the parts of the outputs that they take, and the key's
// digest. In 01's order the public numbers come before the opening and the secrets: where one of these is refused, they are tested first.
ghost use Rattle.std.specs.Prelude.{Some, ◌≡◌, length, replicate};
ghost use Rattle.schemes.specs.Schemes.{fixed_of};
ghost use Rattle.refusals.specs.Refusals.{◌then◌, publics_in_lem, not_blank_lem, pass};
ghost use Rattle.refusals.specs.Steps.{Laid};
ghost use Rattle.values.specs.Fit.{Counted};
ghost use Rattle.reply.specs.Reply.{reply, reply_rooms_of, reply_rooms, replied_part, reply_message, reply_key, reply_told, reply_seen, reply_result};
ghost use Rattle.reply.specs.Inside.{reply_sizes_lem, reply_last, reply_rest, message_from, key_from, Settles, Mixes, Replying};

use crate::ReplyCounts;
use refusals::Refusal;
use schemes::Scheme;

// Both outputs become zeros, whatever they held.
pub(crate) fn zero_outputs(message: &mut [u8], key: &mut [u8])
    ensures message_value { message.new ≡ replicate (length message.old) 0 }
    ensures key_value { key.new ≡ replicate (length key.old) 0 }
{
    message.fill(0);
    key.fill(0);
}

// Message and key of what is lent, with the test of the public numbers. The opening's numbers b become the message's. No scheme has more than 1024 values or
// groups.
fn lay(
    scheme: Scheme,
    b: &mut [u32],
    a: &[u32],
    s1: &[i32],
    e1: &[i32],
    e2: &[i32],
    coins: &[u8],
    message: &mut [u8],
    key: &mut [u8],
) -> Result<(), Refusal>
    requires settles { Settles scheme b.old s1.now e2.now coins.now × Mixes scheme a.now s1.now e1.now }
    requires message_len { (length message.old ≡ (fixed_of scheme).reply) × (length key.old ≡ (fixed_of scheme).key) }
    ensures value { result ≡ publics_in_lem (fixed_of scheme).q a.now then not_blank_lem (replied_part scheme a.now s1.now e1.now) }
    ensures laid { Laid result (message_from scheme b.old a.now s1.now e1.now e2.now coins.now) message.old message.new }
    ensures laid_2 { Laid result (key_from scheme b.old s1.now e2.now coins.now) key.old key.new }
{
    let f = scheme.fixed();
    let n = f.mixed;
    let g = f.groups;
    let mut v = [0u32; 1024];
    let mut tosses = [0u32; 1024];
    let mut hints = [0u32; 1024];
    let mut entries = [0u32; 1024];
    let at = values::products::reply(scheme, a, s1, e1, e2, b, &mut v[..n]);
    refusals::publics_at(at, a)?;
    wire::steps::lay_values(
        scheme,
        b,
        &v[..n],
        coins,
        &mut tosses[..g],
        &mut hints[..n],
        &mut entries[..g],
        message,
        key,
    )
}

// The secrets' tests, then message and key. What is refused leaves zeros; a secret is refused behind the public numbers.
fn with_secrets(
    scheme: Scheme,
    b: &mut [u32],
    a: &[u32],
    s1: &[i32],
    e1: &[i32],
    e2: &[i32],
    coins: &[u8],
    message: &mut [u8],
    key: &mut [u8],
) -> Result<(), Refusal>
    requires replying { Replying scheme a.now s1.now e1.now e2.now coins.now message.old key.old }
    requires counted { Counted (fixed_of scheme).secret (fixed_of scheme).q b.old }
    ensures value { result ≡ publics_in_lem (fixed_of scheme).q a.now then reply_last scheme a.now s1.now e1.now e2.now }
    ensures laid { Laid result (message_from scheme b.old a.now s1.now e1.now e2.now coins.now) message.old message.new }
    ensures laid_2 { Laid result (key_from scheme b.old s1.now e2.now coins.now) key.old key.new }
{
    let f = scheme.fixed();
    let v = wire::steps::reply_secrets(scheme, s1, e1, e2);
    if let Err(r) = v {
        refusals::publics_in(f.q, a)?;
        return Err(r);
    }
    lay(scheme, b, a, s1, e1, e2, coins, message, key)
}

// The opening's numbers, of which no scheme has more than 6912, then the secrets' tests. A refused message ends the call here, with its place, behind the public
// numbers.
fn with_opening(
    scheme: Scheme,
    opening: &[u8],
    a: &[u32],
    s1: &[i32],
    e1: &[i32],
    e2: &[i32],
    coins: &[u8],
    message: &mut [u8],
    key: &mut [u8],
) -> Result<(), Refusal>
    requires replying { Replying scheme a.now s1.now e1.now e2.now coins.now message.old key.old }
    requires opening_len { length opening.now ≡ (fixed_of scheme).opening }
    ensures value { result ≡ publics_in_lem (fixed_of scheme).q a.now then reply_rest scheme (reply opening.now a.now s1.now e1.now e2.now coins.now) }
    ensures laid { Laid result (reply_message (Some scheme) (reply opening.now a.now s1.now e1.now e2.now coins.now)) message.old message.new }
    ensures laid_2 { Laid result (reply_key (Some scheme) (reply opening.now a.now s1.now e1.now e2.now coins.now)) key.old key.new }
{
    let f = scheme.fixed();
    let n = f.secret;
    let mut b = [0u32; 6912];
    let v = wire::take_opening(scheme, opening, &mut b[..n]);
    let Ok(()) = v else {
        zero_outputs(message, key);
        return refusals::publics_before(v, f.q, a);
    };
    with_secrets(scheme, &mut b[..n], a, s1, e1, e2, coins, message, key)
}

// Where lengths and rooms have passed.
fn reply_sized(
    scheme: Scheme,
    opening: &[u8],
    a: &[u32],
    s1: &[i32],
    e1: &[i32],
    e2: &[i32],
    coins: &[u8],
    message: &mut [u8],
    key: &mut [u8],
    digest: &mut [u8],
) -> Result<ReplyCounts, Refusal>
    requires digest_value { reply_sizes_lem scheme (reply opening.now a.now s1.now e1.now e2.now coins.now) (reply_rooms_of (length message.old) (length key.old) (length digest.old))
        ≡ pass }
    requires message_value { (message.old ≡ replicate (length message.old) 0) × (key.old ≡ replicate (length key.old) 0) }
    requires digest_value_2 { digest.old ≡ replicate (length digest.old) 0 }
    ensures { reply_seen (reply_told result) message.new key.new digest.new ≡ reply_result (Some scheme) (reply opening.now a.now s1.now e1.now e2.now coins.now) (reply_rooms message.old key.old digest.old) }
{
    let f = scheme.fixed();
    let n = f.reply;
    let k = f.key;
    with_opening(
        scheme,
        opening,
        a,
        s1,
        e1,
        e2,
        coins,
        &mut message[..n],
        &mut key[..k],
    )?;
    sponge::lay_digest(&key[..k], digest);
    Ok(ReplyCounts {
        message: n,
        key: k,
        digest: 32,
    })
}

pub(crate) fn reply_in(
    scheme: Scheme,
    opening: &[u8],
    a: &[u32],
    s1: &[i32],
    e1: &[i32],
    e2: &[i32],
    coins: &[u8],
    message: &mut [u8],
    key: &mut [u8],
    digest: &mut [u8],
) -> Result<ReplyCounts, Refusal>
    requires message_value { (message.old ≡ replicate (length message.old) 0) × (key.old ≡ replicate (length key.old) 0) }
    requires digest_value { digest.old ≡ replicate (length digest.old) 0 }
    ensures { reply_seen (reply_told result) message.new key.new digest.new ≡ reply_result (Some scheme) (reply opening.now a.now s1.now e1.now e2.now coins.now) (reply_rooms message.old key.old digest.old) }
{
    crate::tests::reply_sizes(
        scheme,
        opening,
        a,
        s1,
        e1,
        e2,
        coins,
        message.len(),
        key.len(),
        digest.len(),
    )?;
    reply_sized(scheme, opening, a, s1, e1, e2, coins, message, key, digest)
}
