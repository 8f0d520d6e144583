// Offer's begin and end, once the scheme is known: the tests in 01's order, then the state, or the message into the part of the output that it takes.
ghost use Rattle.std.specs.Prelude.{Some, ◌≡◌, true, ◌++◌, ◌≤◌, length, replicate};
ghost use Rattle.schemes.specs.Schemes.{family_of, fixed_of};
ghost use Rattle.schemes.specs.declared.Family.{Family};
ghost use Rattle.lists.specs.Ranges.{Below};
ghost use Rattle.refusals.specs.Refusals.{not_blank_lem};
ghost use Rattle.refusals.specs.Seen.{told, seen};
ghost use Rattle.refusals.specs.Steps.{Laid};
ghost use Rattle.rows_state.specs.State.{begun};
ghost use Rattle.rows_state.specs.Part.{state_seen};
ghost use Rattle.rows.specs.Offer.{offer_begin_lem, offer_begin_tests, offer_begin_result, sent_part, offer_end_message, offer_end_result};
ghost use Rattle.rows.specs.Inside.{offer_end_sizes};

use refusals::Refusal;
use rows_state::Call;
use schemes::Scheme;

fn begin_tests(
    scheme: Scheme,
    s: &[i32],
    e: &[i32],
    seed: &[u8],
    room: usize,
) -> Result<(), Refusal>
    requires { (fixed_of scheme).n ≤ 864 }
    ensures { result ≡ offer_begin_tests (Some scheme) (offer_begin_lem s.now e.now seed.now) room }
{
    let f = scheme.fixed();
    refusals::length_is(s.len(), f.secret)?;
    refusals::length_is(e.len(), f.noise)?;
    refusals::length_is(seed.len(), f.seed)?;
    refusals::length_is(room, 16 * f.n + 67)?;
    refusals::secrets_in(f.largest, s)?;
    refusals::secrets_in(f.largest, e)
}

// Bytes as numbers.
fn spread(bytes: &[u8], out: &mut [u32])
    requires { length bytes.now ≡ length out.old }
    ensures { out.new ≡ bytes.now }
{
    for k in 0..out.len() {
        out[k] = u32::from(bytes[k]);
    }
}

// What is kept for the end: the seed, and zeros behind it.
fn lay_seed(seed: &[u8], kept: &mut [u32])
    requires { (length seed.now ≡ 16) × (kept.old ≡ replicate 64 0) }
    ensures { kept.new ≡ seed.now ++ replicate 48 0 }
{
    spread(seed, &mut kept[..16]);
}

pub(crate) fn begin_in(
    scheme: Scheme,
    s: &[i32],
    e: &[i32],
    seed: &[u8],
    state: &mut [u32],
) -> Result<(), Refusal>
    requires { (family_of scheme ≡ Family.Frodo) × (state.old ≡ replicate (length state.old) 0) }
    ensures { state_seen result state.new ≡ offer_begin_result (Some scheme) (offer_begin_lem s.now e.now seed.now) (length state.old) }
{
    let f = scheme.fixed();
    begin_tests(scheme, s, e, seed, state.len())?;
    lay_seed(seed, &mut state[3..67]);
    rows_state::state::lay_state(Call::Offer, scheme, f.n, s, e, state);
    Ok(())
}

// Numbers that are bytes.
fn gather(xs: &[u32], out: &mut [u8])
    requires { (length xs.now ≡ length out.old) × Below 256 xs.now }
    ensures { out.new ≡ xs.now }
{
    for k in 0..out.len() {
        out[k] = xs[k] as u8;
    }
}

// The opening of the sums and the seed that was kept. No scheme has more than 6912 sums.
fn lay(scheme: Scheme, state: &[u32], out: &mut [u8]) -> Result<(), Refusal>
    requires { (family_of scheme ≡ Family.Frodo) × (begun Call.Offer (fixed_of scheme) state.now ≡ true) × (length out.old ≡ (fixed_of scheme).opening) }
    ensures value { result ≡ not_blank_lem (sent_part scheme state.now) }
    ensures laid { Laid result (offer_end_message (Some scheme) state.now) out.old out.new }
{
    let f = scheme.fixed();
    let n = f.secret;
    let mut seed = [0u8; 16];
    let mut b = [0u32; 6912];
    gather(&state[3..19], &mut seed);
    rows_state::state::reduce(f.q, f.n, state, &mut b[..n]);
    wire::steps::lay_numbers(scheme, &b[..n], &seed, out)
}

fn end_tests(scheme: Scheme, state: &[u32], room: usize) -> Result<(), Refusal>
    requires { (fixed_of scheme).n ≤ 864 }
    ensures { result ≡ offer_end_sizes scheme state.now room }
{
    let f = scheme.fixed();
    refusals::in_turn(rows_state::state::is_complete(Call::Offer, f, state))?;
    refusals::room_for(room, f.opening)
}

// The message into the zeroed output, where turn, room and the part about to be sent pass.
pub(crate) fn send(state: &[u32], message: &mut [u8]) -> Result<usize, Refusal>
    ensures { seen (told result) message.new ≡ (offer_end_result state.now (length message.old)).answer }
{
    message.fill(0);
    let scheme = rows_state::state::named(state).ok_or(Refusal::OutOfTurn)?;
    let f = scheme.fixed();
    let n = f.opening;
    end_tests(scheme, state, message.len())?;
    lay(scheme, state, &mut message[..n])?;
    Ok(n)
}
