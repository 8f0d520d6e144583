// Reply, the second call of 01, on lent slices. It has no `requires`: it ends with an answer or a numbered refusal, given exactly when its condition holds;
// after a refusal every output is zero from end to end, and after a success what lies behind the answer is zero.
#![tactic(auto)]

ghost use Rattle.std.specs.Prelude.{◌≡◌};
ghost use Rattle.schemes.specs.Schemes.{scheme_of_lem};
ghost use Rattle.reply.specs.Reply.{reply, reply_rooms, reply_told, reply_seen, reply_result};

mod replier;
mod tests;

use refusals::Refusal;

// What Reply gives where nothing is refused: how much it wrote of each output.
#[derive(Clone, Copy)]
pub struct ReplyCounts {
    pub message: usize,
    pub key: usize,
    pub digest: usize,
}

// Reply: the reply message, the replier's key and its digest, from the opening message, the public numbers a, the secret s', the noise e' and e'' and the coins.
pub fn reply(
    scheme: u32,
    opening: &[u8],
    a: &[u32],
    s1: &[i32],
    e1: &[i32],
    e2: &[i32],
    coins: &[u8],
    message: &mut [u8],
    key: &mut [u8],
    digest: &mut [u8],
) -> Result<ReplyCounts, Refusal>
    ensures { reply_seen (reply_told result) message.new key.new digest.new ≡ reply_result (scheme_of_lem scheme) (reply opening.now a.now s1.now e1.now e2.now coins.now) (reply_rooms message.old key.old digest.old) }
{
    replier::zero_outputs(message, key);
    let known = refusals::named(scheme, digest)?;
    replier::reply_in(known, opening, a, s1, e1, e2, coins, message, key, digest)
}
