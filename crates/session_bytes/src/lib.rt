// A session behind a pointer: 130 lent bytes, taken apart into a session by value and laid out again. A buffer that no call leaves is in no stage at all:
// every call but close gives 10 and leaves it as it is.

#![tactic(auto)]

ghost use Rattle.std.specs.Prelude.{Err, None, ◌≡◌, ◌≤◌, length, drop, []};
ghost use Rattle.refusals.specs.Seen.{done, told, seen};
ghost use Rattle.offer.specs.Offer as offers;
ghost use Rattle.reply.specs.Reply as replies;
ghost use Rattle.finish.specs.Finish as finishes;
ghost use Rattle.session.specs.Table.{offering, replying, finishing, closing};
ghost use Rattle.session.specs.Seen.{of_offer, of_reply, of_finish, of_close, turn};
ghost use Rattle.session_bytes.specs.Bytes.{stage_byte_lem, scheme_byte_lem, bytes_of, stage_in_lem, key_length_lem, staged, moved_bytes};
ghost use Rattle.noise.specs.Expand.{rule_of_lem};
ghost use Rattle.exchange.specs.Open.{open_lent, open_rooms, open_shown, open_told, open_seen};
ghost use Rattle.exchange.specs.Answer.{answer_lent};
ghost use Rattle.session_bytes.specs.Drawn.{idle_at, open_moved, answer_moved};

use exchange::OpenCounts;
use finish::FinishCounts;
use refusals::Refusal;
use reply::ReplyCounts;
use schemes::Scheme;
use session::{Session, Stage};

fn stage_byte(stage: Stage) -> u8
    ensures { result ≡ stage_byte_lem stage }
{
    match stage {
        Stage::Idle => 0,
        Stage::Offered(_) => 1,
        Stage::Keyed(_) => 2,
    }
}

// A scheme's number is at most 5.
fn scheme_byte(stage: Stage) -> u32
    ensures { (result ≡ scheme_byte_lem stage) × (result ≤ 5) }
{
    match stage {
        Stage::Idle => 0,
        Stage::Offered(known) => known.number(),
        Stage::Keyed(known) => known.number(),
    }
}

fn key_length(stage: Stage) -> usize
    ensures { (result ≡ key_length_lem stage) × (result ≤ 128) }
{
    match stage {
        Stage::Keyed(known) => known.fixed().key,
        _ => 0,
    }
}

// The stage that the first two bytes name.
#[tactic(auto, unfolding(crate::specs::Bytes::stage_in_lem))]
fn stage_in(stage: u8, scheme: u8) -> Option<Stage>
    ensures { result ≡ stage_in_lem stage scheme }
{
    if stage == 0 {
        if scheme == 0 {
            return Some(Stage::Idle);
        }
        return None;
    }
    let Ok(known) = Scheme::try_from(u32::from(scheme)) else {
        return None;
    };
    match stage {
        1 => Some(Stage::Offered(known)),
        2 => Some(Stage::Keyed(known)),
        _ => None,
    }
}

// The stage of a buffer that is a session; of another, none.
#[tactic(auto, unfolding(crate::specs::Bytes::staged))]
pub fn stage_of(bytes: &[u8]) -> Option<Stage>
    ensures { result ≡ staged bytes.now }
{
    if bytes.len() != 130 {
        return None;
    }
    let stage = stage_in(bytes[0], bytes[1])?;
    let from = 2 + key_length(stage);
    if blank::bytes(&bytes[from..130]) {
        Some(stage)
    } else {
        None
    }
}

fn key_of(bytes: &[u8]) -> [u8; 128]
    requires { length bytes.now ≡ 130 }
    ensures { result ≡ drop 2 bytes.now }
{
    let mut key = session::no_key();
    key.copy_from_slice(&bytes[2..130]);
    key
}

fn lay_out(y: Session, bytes: &mut [u8])
    requires { length bytes.old ≡ 130 }
    ensures { bytes.new ≡ bytes_of y }
{
    let stage = y.stage;
    let key = y.key;
    bytes[2..130].copy_from_slice(&key);
    bytes[0] = stage_byte(stage);
    bytes[1] = scheme_byte(stage) as u8;
}

// Offer on a session in bytes.
pub fn offer(
    bytes: &mut [u8],
    scheme: u32,
    a: &[u32],
    s: &[i32],
    e: &[i32],
    seed: &[u8],
    message: &mut [u8],
) -> Result<usize, Refusal>
    ensures { turn bytes.new (of_offer (seen (told result) message.new)) ≡ moved_bytes bytes.old (offering scheme (offers.offer a.now s.now e.now seed.now) (length message.old)) }
{
    let Some(stage) = stage_of(bytes) else {
        return session::stop(Refusal::OutOfStage, message);
    };
    let key = key_of(bytes);
    let moved = session::offer(Session { stage, key }, scheme, a, s, e, seed, message);
    let next = moved.session;
    lay_out(next, bytes);
    moved.answer
}

// Reply on one.
pub fn reply(
    bytes: &mut [u8],
    scheme: u32,
    opening: &[u8],
    a: &[u32],
    s1: &[i32],
    e1: &[i32],
    e2: &[i32],
    coins: &[u8],
    message: &mut [u8],
    key: &mut [u8],
    digest: &mut [u8],
) -> Result<ReplyCounts, Refusal>
    ensures { turn bytes.new (of_reply (replies.reply_seen (replies.reply_told result) message.new key.new digest.new))
        ≡ moved_bytes bytes.old (replying scheme (replies.reply opening.now a.now s1.now e1.now e2.now coins.now) (replies.reply_rooms message.old key.old digest.old)) }
{
    let Some(stage) = stage_of(bytes) else {
        return session::stop_reply(Refusal::OutOfStage, message, key, digest);
    };
    let held = key_of(bytes);
    let from = Session { stage, key: held };
    let moved = session::reply(
        from, scheme, opening, a, s1, e1, e2, coins, message, key, digest,
    );
    let next = moved.session;
    lay_out(next, bytes);
    moved.answer
}

// Finish on one.
pub fn finish(
    bytes: &mut [u8],
    scheme: u32,
    reply: &[u8],
    s: &[i32],
    key: &mut [u8],
    digest: &mut [u8],
) -> Result<FinishCounts, Refusal>
    ensures { turn bytes.new (of_finish (finishes.finish_seen (finishes.finish_told result) key.new digest.new))
        ≡ moved_bytes bytes.old (finishing scheme (finishes.finish reply.now s.now) (finishes.finish_rooms key.old digest.old)) }
{
    let Some(stage) = stage_of(bytes) else {
        return session::stop_finish(Refusal::OutOfStage, key, digest);
    };
    let held = key_of(bytes);
    let moved = session::finish(Session { stage, key: held }, scheme, reply, s, key, digest);
    let next = moved.session;
    lay_out(next, bytes);
    moved.answer
}

// Close on any buffer: it looks at nothing, and refuses nothing.
pub fn close(bytes: &mut [u8])
    ensures { turn bytes.new (of_close (done 0)) ≡ moved_bytes bytes.old closing }
{
    bytes.fill(0);
}

// Whether a buffer is an idle session.
fn takes(bytes: &[u8]) -> bool
    ensures { result ≡ idle_at (staged bytes.now) }
{
    match stage_of(bytes) {
        Some(stage) => session::is_idle(stage),
        None => false,
    }
}

// The refusal of open ahead of the call beneath.
#[tactic(auto, unfolding(exchange::specs::Open::open_shown, exchange::specs::Open::open_seen, refusals::specs::Seen::written))]
fn stop_open(refusal: Refusal, opening: &mut [u8], s: &mut [i32]) -> Result<OpenCounts, Refusal>
    ensures { open_seen (open_told result) opening.new s.new
        ≡ open_shown (Err refusal) None None (open_lent [] [] []) (open_rooms opening.old s.old) }
{
    opening.fill(0);
    s.fill(0);
    Err(refusal)
}

// Open on a session in bytes: Offer from random bytes.
pub fn open(
    bytes: &mut [u8],
    scheme: u32,
    rule: u32,
    a: &[u32],
    table: &[u64],
    random: &[u8],
    opening: &mut [u8],
    s: &mut [i32],
) -> Result<OpenCounts, Refusal>
    ensures { turn bytes.new (open_seen (open_told result) opening.new s.new)
        ≡ open_moved bytes.old scheme (rule_of_lem rule) (open_lent a.now table.now random.now) (open_rooms opening.old s.old) }
{
    if !takes(bytes) {
        return stop_open(Refusal::OutOfStage, opening, s);
    }
    let opened = exchange::open(scheme, rule, a, table, random, opening, s);
    let Ok(_) = opened else {
        return opened;
    };
    let next = session::offered(scheme);
    lay_out(next, bytes);
    opened
}

// Answer on one: Reply from random bytes.
pub fn answer(
    bytes: &mut [u8],
    scheme: u32,
    rule: u32,
    opening: &[u8],
    a: &[u32],
    table: &[u64],
    random: &[u8],
    message: &mut [u8],
    key: &mut [u8],
    digest: &mut [u8],
) -> Result<ReplyCounts, Refusal>
    ensures { turn bytes.new (replies.reply_seen (replies.reply_told result) message.new key.new digest.new)
        ≡ answer_moved bytes.old scheme (rule_of_lem rule) (answer_lent opening.now a.now table.now random.now) (replies.reply_rooms message.old key.old digest.old) }
{
    if !takes(bytes) {
        return session::stop_reply(Refusal::OutOfStage, message, key, digest);
    }
    let reply = exchange::answer(
        scheme, rule, opening, a, table, random, message, key, digest,
    );
    let Ok(counts) = reply else {
        return reply;
    };
    let next = session::keyed(scheme, key, counts.key);
    lay_out(next, bytes);
    reply
}
