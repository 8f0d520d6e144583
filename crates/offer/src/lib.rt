// Offer, the first call of 01, on lent slices. It has no `requires`: it ends with an answer or a numbered refusal, given exactly when its condition holds;
// after a refusal its output is zero from end to end, and after a success what lies behind the answer is zero.
#![tactic(auto)]

ghost use Rattle.std.specs.Prelude.{◌≡◌, length};
ghost use Rattle.schemes.specs.Schemes.{scheme_of_lem};
ghost use Rattle.refusals.specs.Seen.{told, seen};
ghost use Rattle.offer.specs.Offer.{offer, offer_result};

mod opener;
mod tests;

use refusals::Refusal;

// Offer: the opening message, from the public numbers a, the secret s, the noise e and the seed.
pub fn offer(
    scheme: u32,
    a: &[u32],
    s: &[i32],
    e: &[i32],
    seed: &[u8],
    message: &mut [u8],
) -> Result<usize, Refusal>
    ensures { seen (told result) message.new ≡ offer_result (scheme_of_lem scheme) (offer a.now s.now e.now seed.now) (length message.old) }
{
    let known = refusals::named(scheme, message)?;
    opener::offer_in(known, a, s, e, seed, message)
}
