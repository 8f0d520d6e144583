// A link session above the key agreement: 02, request a. A session goes in by value and comes back by value beside the call's answer. No call has a
// `requires`: where the stage does not take the call it is refusal 10, before all of 01's, and a refused call leaves the session as it was. Of the key
// agreement nothing is used but what its calls promise.

#![tactic(auto)]

ghost use Rattle.std.specs.Prelude.{Err, None, ◌≡◌, [], take, length};
ghost use Rattle.schemes.specs.Schemes.{scheme_of_lem};
ghost use Rattle.refusals.specs.Seen.{told, seen, shown};
ghost use Rattle.offer.specs.Offer as offers;
ghost use Rattle.reply.specs.Reply as replies;
ghost use Rattle.finish.specs.Finish as finishes;
ghost use Rattle.finish.specs.Finish.{finish, finish_rooms, finish_seen, finish_shown, finish_told};
ghost use Rattle.session.specs.Table.{offering, replying, finishing, closing, when_idle, when_offered, padded, no_key_lem};
ghost use Rattle.session.specs.Table as table;
ghost use Rattle.session.specs.Seen.{of_offer, of_reply, of_finish, of_close, turn, moved};

use finish::FinishCounts;
use refusals::Refusal;
use reply::ReplyCounts;
use schemes::Scheme;

// Where a session stands, with the scheme that it was opened with.
#[derive(Clone, Copy)]
pub enum Stage {
    Idle,
    Offered(Scheme),
    Keyed(Scheme),
}

// The key is zero until keyed, then the one that Reply or Finish gave, with zeros behind it.
#[derive(Drop)]
pub struct Session {
    pub stage: Stage,
    pub key: [u8; 128],
}

// What a call answers: the session after it, and the answer of the call beneath, or 10.
#[derive(Drop)]
pub struct Moved<A> {
    pub session: Session,
    pub answer: A,
}

// Whether the stage takes an Offer or a Reply.
pub fn is_idle(stage: Stage) -> bool
    ensures { result ≡ when_idle stage }
{
    match stage {
        Stage::Idle => true,
        _ => false,
    }
}

// Whether the stage takes a Finish with the scheme.
fn awaits(stage: Stage, scheme: u32) -> bool
    ensures { result ≡ when_offered scheme stage }
{
    match stage {
        Stage::Offered(known) => known.number() == scheme,
        _ => false,
    }
}

// No key: 128 zeros.
#[tactic(auto, unfolding(crate::specs::Table::no_key_lem))]
pub fn no_key() -> [u8; 128]
    ensures { result ≡ no_key_lem }
{
    [0u8; 128]
}

// An idle session.
pub fn idle() -> Session
    ensures { result ≡ table.idle }
{
    Session {
        stage: Stage::Idle,
        key: no_key(),
    }
}

// The session after an Offer that nothing refused.
pub fn offered(scheme: u32) -> Session
    ensures { result ≡ table.offered (scheme_of_lem scheme) }
{
    let Ok(known) = Scheme::try_from(scheme) else {
        return idle();
    };
    Session {
        stage: Stage::Offered(known),
        key: no_key(),
    }
}

// The first n bytes of an output in the key's place of 128, as far as there are so many and the place takes them.
fn padded_key(key: &[u8], n: usize) -> [u8; 128]
    ensures { result ≡ padded (take n key.now) }
{
    let mut place = no_key();
    let count = n.min(key.len()).min(128);
    place[..count].copy_from_slice(&key[..count]);
    place
}

// The session after a Reply or a Finish that nothing refused, with the first n bytes that it wrote as its key.
pub fn keyed(scheme: u32, key: &[u8], n: usize) -> Session
    ensures { result ≡ table.keyed (scheme_of_lem scheme) (take n key.now) }
{
    let Ok(known) = Scheme::try_from(scheme) else {
        return idle();
    };
    Session {
        stage: Stage::Keyed(known),
        key: padded_key(key, n),
    }
}

// The refusal of a call ahead of the one beneath: each output is zeroed, whatever it held. Of Offer:
#[tactic(auto, unfolding(refusals::specs::Seen::shown, refusals::specs::Seen::seen, refusals::specs::Seen::written))]
pub fn stop(refusal: Refusal, message: &mut [u8]) -> Result<usize, Refusal>
    ensures { seen (told result) message.new ≡ shown (Err refusal) [] 0 (length message.old) }
{
    message.fill(0);
    Err(refusal)
}

// Of Reply.
#[tactic(auto, unfolding(reply::specs::Reply::outputs, reply::specs::Reply::reply_seen, refusals::specs::Seen::written))]
pub fn stop_reply(
    refusal: Refusal,
    message: &mut [u8],
    key: &mut [u8],
    digest: &mut [u8],
) -> Result<ReplyCounts, Refusal>
    ensures { replies.reply_seen (replies.reply_told result) message.new key.new digest.new
        ≡ replies.outputs (Err refusal) [] [] [] (replies.reply_rooms message.old key.old digest.old) }
{
    message.fill(0);
    key.fill(0);
    digest.fill(0);
    Err(refusal)
}

// Of Finish, in which a refusal shows the same whatever the scheme and the inputs are.
#[tactic(auto, unfolding(finish::specs::Finish::finish_shown, finish::specs::Finish::finish_seen, refusals::specs::Seen::written))]
pub fn stop_finish(
    refusal: Refusal,
    key: &mut [u8],
    digest: &mut [u8],
) -> Result<FinishCounts, Refusal>
    ensures { finish_seen (finish_told result) key.new digest.new ≡ finish_shown (Err refusal) None (finish [] []) (finish_rooms key.old digest.old) }
{
    key.fill(0);
    digest.fill(0);
    Err(refusal)
}

// Offer: when idle; it leads to offered.
pub fn offer(
    session: Session,
    scheme: u32,
    a: &[u32],
    s: &[i32],
    e: &[i32],
    seed: &[u8],
    message: &mut [u8],
) -> Moved<Result<usize, Refusal>>
    ensures { turn result.session (of_offer (seen (told result.answer) message.new)) ≡ moved session (offering scheme (offers.offer a.now s.now e.now seed.now) (length message.old)) }
{
    let stage = session.stage;
    if !is_idle(stage) {
        let answer = stop(Refusal::OutOfStage, message);
        return Moved { session, answer };
    }
    let answer = offer::offer(scheme, a, s, e, seed, message);
    let Ok(_) = answer else {
        return Moved { session, answer };
    };
    Moved {
        session: offered(scheme),
        answer,
    }
}

// Reply: when idle; it leads to keyed.
pub fn reply(
    session: Session,
    scheme: u32,
    opening: &[u8],
    a: &[u32],
    s1: &[i32],
    e1: &[i32],
    e2: &[i32],
    coins: &[u8],
    message: &mut [u8],
    key: &mut [u8],
    digest: &mut [u8],
) -> Moved<Result<ReplyCounts, Refusal>>
    ensures { turn result.session (of_reply (replies.reply_seen (replies.reply_told result.answer) message.new key.new digest.new))
        ≡ moved session (replying scheme (replies.reply opening.now a.now s1.now e1.now e2.now coins.now) (replies.reply_rooms message.old key.old digest.old)) }
{
    let stage = session.stage;
    if !is_idle(stage) {
        let answer = stop_reply(Refusal::OutOfStage, message, key, digest);
        return Moved { session, answer };
    }
    let answer = reply::reply(scheme, opening, a, s1, e1, e2, coins, message, key, digest);
    let Ok(counts) = answer else {
        return Moved { session, answer };
    };
    Moved {
        session: keyed(scheme, key, counts.key),
        answer,
    }
}

// Finish: when offered, with that scheme; it leads to keyed.
pub fn finish(
    session: Session,
    scheme: u32,
    reply: &[u8],
    s: &[i32],
    key: &mut [u8],
    digest: &mut [u8],
) -> Moved<Result<FinishCounts, Refusal>>
    ensures { turn result.session (of_finish (finish_seen (finish_told result.answer) key.new digest.new))
        ≡ moved session (finishing scheme (finishes.finish reply.now s.now) (finish_rooms key.old digest.old)) }
{
    let stage = session.stage;
    if !awaits(stage, scheme) {
        let answer = stop_finish(Refusal::OutOfStage, key, digest);
        return Moved { session, answer };
    }
    let answer = finish::finish(scheme, reply, s, key, digest);
    let Ok(counts) = answer else {
        return Moved { session, answer };
    };
    Moved {
        session: keyed(scheme, key, counts.key),
        answer,
    }
}

// Close: always; it leads to idle.
pub fn close(session: Session) -> Moved<Result<usize, Refusal>>
    ensures { turn result.session (of_close (told result.answer)) ≡ moved session closing }
{
    Moved {
        session: idle(),
        answer: Ok(0),
    }
}
