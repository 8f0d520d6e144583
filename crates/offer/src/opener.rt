// Offer, once the scheme is known and the output holds zeros: the tests in 01's order, the last of them with the product, which reads the public numbers once;
// then, where its numbers are not all 0, the opening's bytes into the part of the output that it takes.
ghost use Rattle.std.specs.Prelude.{Some};
ghost use Rattle.std.specs.Prelude.{◌≡◌, length, replicate};
ghost use Rattle.schemes.specs.Schemes.{fixed_of};
ghost use Rattle.refusals.specs.Refusals.{◌then◌, publics_in_lem, not_blank_lem};
ghost use Rattle.refusals.specs.Seen.{told, seen};
ghost use Rattle.refusals.specs.Steps.{Laid};
ghost use Rattle.refusals.specs.Refusals.{pass};
ghost use Rattle.offer.specs.Offer.{offer, offered_part, offer_message, offer_result};
ghost use Rattle.offer.specs.Inside.{offer_ahead, Opens};

use refusals::Refusal;
use schemes::Scheme;

// The opening of what is lent, with the test of the public numbers and room for n numbers, of which no scheme has more than 6912.
fn lay(
    scheme: Scheme,
    n: usize,
    a: &[u32],
    s: &[i32],
    e: &[i32],
    seed: &[u8],
    out: &mut [u8],
) -> Result<(), Refusal>
    requires opens { Opens scheme (offer a.now s.now e.now seed.now) }
    requires n_value { (n ≡ (fixed_of scheme).secret) × (length out.old ≡ (fixed_of scheme).opening) }
    ensures value { result ≡ publics_in_lem (fixed_of scheme).q a.now then not_blank_lem (offered_part scheme (offer a.now s.now e.now seed.now)) }
    ensures laid { Laid result (offer_message (Some scheme) (offer a.now s.now e.now seed.now)) out.old out.new }
{
    let mut b = [0u32; 6912];
    let at = values::products::offer(scheme, a, s, e, &mut b[..n]);
    refusals::publics_at(at, a)?;
    wire::steps::lay_numbers(scheme, &b[..n], seed, out)
}

// Where all tests but that of the public numbers have passed.
fn send(
    scheme: Scheme,
    a: &[u32],
    s: &[i32],
    e: &[i32],
    seed: &[u8],
    message: &mut [u8],
) -> Result<usize, Refusal>
    requires message_value { offer_ahead scheme (offer a.now s.now e.now seed.now) (length message.old) ≡ pass }
    requires message_value_2 { message.old ≡ replicate (length message.old) 0 }
    ensures { seen (told result) message.new ≡ offer_result (Some scheme) (offer a.now s.now e.now seed.now) (length message.old) }
{
    let f = scheme.fixed();
    let n = f.opening;
    lay(scheme, f.secret, a, s, e, seed, &mut message[..n])?;
    Ok(n)
}

pub(crate) fn offer_in(
    scheme: Scheme,
    a: &[u32],
    s: &[i32],
    e: &[i32],
    seed: &[u8],
    message: &mut [u8],
) -> Result<usize, Refusal>
    requires { message.old ≡ replicate (length message.old) 0 }
    ensures { seen (told result) message.new ≡ offer_result (Some scheme) (offer a.now s.now e.now seed.now) (length message.old) }
{
    crate::tests::offer(scheme, a, s, e, seed, message.len())?;
    send(scheme, a, s, e, seed, message)
}
