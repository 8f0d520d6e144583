// Reply's begin and end, once the scheme is known: the tests in 01's order, then the state, or message and key into the parts of the outputs that they take,
// and the key's digest.
ghost use Rattle.std.specs.Prelude.{Some, ◌≡◌, true, ◌≤◌, length, replicate};
ghost use Rattle.schemes.specs.Schemes.{family_of, fixed_of};
ghost use Rattle.schemes.specs.declared.Family.{Family};
ghost use Rattle.refusals.specs.Refusals.{not_blank_lem, pass};
ghost use Rattle.refusals.specs.Seen.{if_passed};
ghost use Rattle.refusals.specs.Steps.{Laid};
ghost use Rattle.reply.specs.Reply.{reply_rooms_of};
ghost use Rattle.rows_state.specs.State.{begun};
ghost use Rattle.rows_state.specs.Part.{state_seen};
ghost use Rattle.rows.specs.Offer.{sent_part};
ghost use Rattle.rows.specs.Reply.{reply_begin_of, reply_begin_lem, reply_state, reply_begin_result, reply_end_message, reply_end_key};
ghost use Rattle.rows.specs.Inside.{reply_begin_sizes, reply_begin_rest, reply_end_sizes, Sent};

use refusals::Refusal;
use reply::ReplyCounts;
use rows_state::Call;
use schemes::Scheme;

fn begin_sizes(
    scheme: Scheme,
    opening: &[u8],
    s1: &[i32],
    e1: &[i32],
    e2: &[i32],
    room: usize,
) -> Result<(), Refusal>
    requires { (fixed_of scheme).n ≤ 864 }
    ensures { result ≡ reply_begin_sizes scheme (reply_begin_lem opening.now s1.now e1.now e2.now) room }
{
    let f = scheme.fixed();
    refusals::length_is(opening.len(), f.opening)?;
    refusals::length_is(s1.len(), f.secret)?;
    refusals::length_is(e1.len(), f.noise)?;
    refusals::length_is(e2.len(), f.mixed)?;
    refusals::length_is(room, 16 * f.n + 67)
}

// Where the sizes have passed: the opening's numbers, of which no scheme has more than 6912, the rest of the tests, and the state. V needs only the opening, and is
// made here. A refused opening ends the call.
fn begin_sized(
    scheme: Scheme,
    opening: &[u8],
    s1: &[i32],
    e1: &[i32],
    e2: &[i32],
    state: &mut [u32],
) -> Result<(), Refusal>
    requires scheme_value { (family_of scheme ≡ Family.Frodo) × (state.old ≡ replicate (length state.old) 0) }
    requires state_value { reply_begin_sizes scheme (reply_begin_of opening.now s1.now e1.now e2.now) (length state.old) ≡ pass }
    ensures value { result ≡ reply_begin_rest scheme (reply_begin_lem opening.now s1.now e1.now e2.now) }
    ensures state_value_2 { state.new ≡ if_passed result (reply_state (Some scheme) (reply_begin_lem opening.now s1.now e1.now e2.now)) state.old }
{
    let f = scheme.fixed();
    let m = f.secret;
    let mut b = [0u32; 6912];
    let v = wire::take_opening(scheme, opening, &mut b[..m]);
    let Ok(()) = v else {
        return v;
    };
    wire::steps::reply_secrets(scheme, s1, e1, e2)?;
    values::products::mix(scheme, &b[..m], s1, e2, &mut state[3..67]);
    rows_state::state::lay_state(Call::Reply, scheme, f.n, s1, e1, state);
    Ok(())
}

pub(crate) fn begin_in(
    scheme: Scheme,
    opening: &[u8],
    s1: &[i32],
    e1: &[i32],
    e2: &[i32],
    state: &mut [u32],
) -> Result<(), Refusal>
    requires { (family_of scheme ≡ Family.Frodo) × (state.old ≡ replicate (length state.old) 0) }
    ensures { state_seen result state.new ≡ reply_begin_result (Some scheme) (reply_begin_lem opening.now s1.now e1.now e2.now) (length state.old) }
{
    begin_sizes(scheme, opening, s1, e1, e2, state.len())?;
    begin_sized(scheme, opening, s1, e1, e2, state)
}

// Message and key of the sums and the V that was kept. Frodo has no coins, and no scheme more than 6912 sums.
fn lay(scheme: Scheme, state: &[u32], message: &mut [u8], key: &mut [u8]) -> Result<(), Refusal>
    requires scheme_value { (family_of scheme ≡ Family.Frodo) × (begun Call.Reply (fixed_of scheme) state.now ≡ true) }
    requires message_len { (length message.old ≡ (fixed_of scheme).reply) × (length key.old ≡ (fixed_of scheme).key) }
    ensures value { result ≡ not_blank_lem (sent_part scheme state.now) }
    ensures laid { Laid result (reply_end_message (Some scheme) state.now) message.old message.new }
    ensures laid_2 { Laid result (reply_end_key (Some scheme) state.now) key.old key.new }
{
    let f = scheme.fixed();
    let n = f.secret;
    let coins = [0u8; 0];
    let mut tosses = [0u32; 64];
    let mut hints = [0u32; 64];
    let mut entries = [0u32; 64];
    let mut u = [0u32; 6912];
    rows_state::state::reduce(f.q, f.n, state, &mut u[..n]);
    wire::steps::lay_values(
        scheme,
        &u[..n],
        &state[3..67],
        &coins,
        &mut tosses,
        &mut hints,
        &mut entries,
        message,
        key,
    )
}

fn end_sizes(
    scheme: Scheme,
    state: &[u32],
    room: usize,
    keyroom: usize,
    digestroom: usize,
) -> Result<(), Refusal>
    requires { (fixed_of scheme).n ≤ 864 }
    ensures { result ≡ reply_end_sizes scheme state.now (reply_rooms_of room keyroom digestroom) }
{
    let f = scheme.fixed();
    refusals::in_turn(rows_state::state::is_complete(Call::Reply, f, state))?;
    refusals::room_for(room, f.reply)?;
    refusals::room_for(keyroom, f.key)?;
    refusals::room_for(digestroom, 32)
}

// Message and key into the zeroed outputs, where turn, rooms and the part about to be sent pass. The digest has room for m bytes.
pub(crate) fn send(
    state: &[u32],
    message: &mut [u8],
    key: &mut [u8],
    m: usize,
) -> Result<ReplyCounts, Refusal>
    ensures { Sent result state.now (reply_rooms_of (length message.old) (length key.old) m) message.new key.new }
{
    message.fill(0);
    key.fill(0);
    let scheme = rows_state::state::named(state).ok_or(Refusal::OutOfTurn)?;
    let f = scheme.fixed();
    let n = f.reply;
    let k = f.key;
    end_sizes(scheme, state, message.len(), key.len(), m)?;
    lay(scheme, state, &mut message[..n], &mut key[..k])?;
    Ok(ReplyCounts {
        message: n,
        key: k,
        digest: 32,
    })
}
