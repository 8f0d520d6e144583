// Frodo by rows: 02, request e. Offer and Reply take A row by row, in parts of any length: begin, parts, end, with a lent state between them. None has a
// `requires`: each ends with an answer or a numbered refusal. A refused begin zeroes the state; a refused part or end leaves it as it was, and every output
// zero, and may be tried again; a good end zeroes it.
#![tactic(auto)]

ghost use Rattle.std.specs.Prelude.{◌≡◌, length};
ghost use Rattle.refusals.specs.Seen.{told, seen};
ghost use Rattle.reply.specs.Reply.{reply_rooms, reply_told, reply_seen};
ghost use Rattle.rows_state.specs.State.{frodo_of_lem};
ghost use Rattle.rows_state.specs.Part.{state_seen, part_result};
ghost use Rattle.rows.specs.Offer.{offer_begin_lem, offer_begin_result, offer_end_result};
ghost use Rattle.rows.specs.Reply.{reply_begin_lem, reply_begin_result, reply_end_result};

mod opener;
mod replier;

use refusals::Refusal;
use reply::ReplyCounts;
use rows_state::Call;

// Offer, begin: the secret s, the noise e and the seed into the state, afresh.
pub fn offer_begin(
    scheme: u32,
    s: &[i32],
    e: &[i32],
    seed: &[u8],
    state: &mut [u32],
) -> Result<(), Refusal>
    ensures { state_seen result state.new ≡ offer_begin_result (frodo_of_lem scheme) (offer_begin_lem s.now e.now seed.now) (length state.old) }
{
    state.fill(0);
    let known = rows_state::state::frodo_of(scheme).ok_or(Refusal::NoScheme)?;
    opener::begin_in(known, s, e, seed, state)
}

// Offer, a part: some numbers of the current row of A.
pub fn offer_part(p: &[u32], state: &mut [u32]) -> Result<(), Refusal>
    ensures { state_seen result state.new ≡ part_result Call.Offer state.old p.now }
{
    rows_state::part::part(Call::Offer, p, state)
}

// Offer, end: the opening message.
pub fn offer_end(state: &mut [u32], message: &mut [u8]) -> Result<usize, Refusal>
    ensures { record { answer = seen (told result) message.new; state = state.new } ≡ offer_end_result state.old (length message.old) }
{
    let n = opener::send(state, message)?;
    state.fill(0);
    Ok(n)
}

// Reply, begin: the opening message, the secret s' and the noise e' and e'' into the state, afresh.
pub fn reply_begin(
    scheme: u32,
    opening: &[u8],
    s1: &[i32],
    e1: &[i32],
    e2: &[i32],
    state: &mut [u32],
) -> Result<(), Refusal>
    ensures { state_seen result state.new ≡ reply_begin_result (frodo_of_lem scheme) (reply_begin_lem opening.now s1.now e1.now e2.now) (length state.old) }
{
    state.fill(0);
    let known = rows_state::state::frodo_of(scheme).ok_or(Refusal::NoScheme)?;
    replier::begin_in(known, opening, s1, e1, e2, state)
}

// Reply, a part: some numbers of the current row of A.
pub fn reply_part(p: &[u32], state: &mut [u32]) -> Result<(), Refusal>
    ensures { state_seen result state.new ≡ part_result Call.Reply state.old p.now }
{
    rows_state::part::part(Call::Reply, p, state)
}

// Reply, end: the reply message, the replier's key and its digest.
pub fn reply_end(
    state: &mut [u32],
    message: &mut [u8],
    key: &mut [u8],
    digest: &mut [u8],
) -> Result<ReplyCounts, Refusal>
    ensures { record { answer = reply_seen (reply_told result) message.new key.new digest.new; state = state.new } ≡ reply_end_result state.old (reply_rooms message.old key.old digest.old) }
{
    digest.fill(0);
    let n = replier::send(state, message, key, digest.len())?;
    sponge::lay_digest(&key[..n.key], digest);
    state.fill(0);
    Ok(n)
}
