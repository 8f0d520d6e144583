// Eight studios, one rack: 02, request k. A rack is eight records of 131 lent bytes, each its studio's number and then a session's 130 bytes. A call lends the
// 130 bytes behind its own slot's number to the session's call; the bytes of other studios stay as they are and decide nothing.

#![tactic(auto)]

ghost use Rattle.std.specs.Prelude.{◌≡◌, length};
ghost use Rattle.refusals.specs.Refusals.{number_in, place_in};
ghost use Rattle.refusals.specs.Seen.{told, seen};
ghost use Rattle.offer.specs.Offer as offers;
ghost use Rattle.reply.specs.Reply as replies;
ghost use Rattle.finish.specs.Finish as finishes;
ghost use Rattle.session.specs.Table.{offering, replying, finishing, closing};
ghost use Rattle.session.specs.Seen.{of_offer, of_reply, of_finish, of_close, told_by, turn};
ghost use Rattle.rack.specs.Slots.{Placed, moved_in, empty_rack, cleared};

use finish::FinishCounts;
use refusals::Refusal;
use reply::ReplyCounts;

// Where a studio's slot begins, after its tests: 16, then 10. Close does not look at the slot's number.
fn slot(bytes: &[u8], studio: u32, closes: bool) -> Result<usize, Refusal>
    ensures { Placed bytes.now studio closes result }
{
    if 8 <= studio {
        return Err(Refusal::NoStudio);
    }
    if bytes.len() != 1048 {
        return Err(Refusal::OutOfStage);
    }
    let at = 131 * (studio as usize);
    if closes {
        return Ok(at);
    }
    if u32::from(bytes[at]) != studio {
        return Err(Refusal::OutOfStage);
    }
    Ok(at)
}

// Offer for a studio.
pub fn offer(
    bytes: &mut [u8],
    studio: u32,
    scheme: u32,
    a: &[u32],
    s: &[i32],
    e: &[i32],
    seed: &[u8],
    message: &mut [u8],
) -> Result<usize, Refusal>
    ensures { turn bytes.new (of_offer (seen (told result) message.new)) ≡ moved_in bytes.old studio (offering scheme (offers.offer a.now s.now e.now seed.now) (length message.old)) }
{
    match slot(bytes, studio, false) {
        Err(refusal) => session::stop(refusal, message),
        Ok(at) => {
            let own = &mut bytes[at + 1..at + 131];
            session_bytes::offer(own, scheme, a, s, e, seed, message)
        }
    }
}

// Reply for one.
pub fn reply(
    bytes: &mut [u8],
    studio: u32,
    scheme: u32,
    opening: &[u8],
    a: &[u32],
    s1: &[i32],
    e1: &[i32],
    e2: &[i32],
    coins: &[u8],
    message: &mut [u8],
    key: &mut [u8],
    digest: &mut [u8],
) -> Result<ReplyCounts, Refusal>
    ensures { turn bytes.new (of_reply (replies.reply_seen (replies.reply_told result) message.new key.new digest.new))
        ≡ moved_in bytes.old studio (replying scheme (replies.reply opening.now a.now s1.now e1.now e2.now coins.now) (replies.reply_rooms message.old key.old digest.old)) }
{
    match slot(bytes, studio, false) {
        Err(refusal) => session::stop_reply(refusal, message, key, digest),
        Ok(at) => {
            let own = &mut bytes[at + 1..at + 131];
            session_bytes::reply(
                own, scheme, opening, a, s1, e1, e2, coins, message, key, digest,
            )
        }
    }
}

// Finish for one.
pub fn finish(
    bytes: &mut [u8],
    studio: u32,
    scheme: u32,
    reply: &[u8],
    s: &[i32],
    key: &mut [u8],
    digest: &mut [u8],
) -> Result<FinishCounts, Refusal>
    ensures { turn bytes.new (of_finish (finishes.finish_seen (finishes.finish_told result) key.new digest.new))
        ≡ moved_in bytes.old studio (finishing scheme (finishes.finish reply.now s.now) (finishes.finish_rooms key.old digest.old)) }
{
    match slot(bytes, studio, false) {
        Err(refusal) => session::stop_finish(refusal, key, digest),
        Ok(at) => {
            let own = &mut bytes[at + 1..at + 131];
            session_bytes::finish(own, scheme, reply, s, key, digest)
        }
    }
}

// Close for one, whatever its slot holds: the number and 130 zeros.
pub fn close(bytes: &mut [u8], studio: u32) -> Result<(), Refusal>
    ensures { turn bytes.new (of_close (told_by result)) ≡ moved_in bytes.old studio closing }
{
    let at = slot(bytes, studio, true)?;
    bytes[at..at + 131].fill(0);
    bytes[at] = studio as u8;
    Ok(())
}

// An empty rack.
fn lay_empty(bytes: &mut [u8])
    requires { length bytes.old ≡ 1048 }
    ensures { bytes.new ≡ empty_rack }
{
    bytes.fill(0);
    for studio in 0..8 {
        bytes[131 * studio] = studio as u8;
    }
}

// Clear: eight idle records with their numbers, whatever the bytes held.
pub fn clear(bytes: &mut [u8]) -> Result<(), Refusal>
    ensures { record { number = number_in result; place = place_in result; rack = bytes.new } ≡ cleared bytes.old }
{
    if bytes.len() != 1048 {
        return Err(Refusal::OutOfStage);
    }
    lay_empty(bytes);
    Ok(())
}
