// Frodo by rows: each exported function hands on to one call of crate `rows`. Begin and part have no output but the state.
ghost use Rattle.std.specs.Prelude.{◌≡◌, length};
ghost use Rattle.refusals.specs.Seen.{seen};
ghost use Rattle.reply.specs.Reply.{reply_rooms, reply_seen};
ghost use Rattle.rows_state.specs.State.{frodo_of_lem};
ghost use Rattle.rows_state.specs.Part.{part_result};
ghost use Rattle.rows.specs.Offer.{offer_begin_lem, offer_begin_result, offer_end_result};
ghost use Rattle.rows.specs.Reply.{reply_begin_lem, reply_begin_result, reply_end_result};
ghost use Rattle.rows_state.specs.declared.Call.{Call};
ghost use Rattle.told.specs.Numbers.{reply_numbers};

// Offer, begin: the secret s, the noise e and the seed into the state.
#[unsafe(no_mangle)]
pub extern "C" fn wim_rows_offer_begin(
    scheme: u32,
    s: &[i32],
    e: &[i32],
    seed: &[u8],
    state: &mut [u32],
    place: &mut u64,
) -> u32
    ensures { record { number = result; place = place.new; state = state.new } ≡ offer_begin_result (frodo_of_lem scheme) (offer_begin_lem s.now e.now seed.now) (length state.old) }
{
    told::tell_verdict(rows::offer_begin(scheme, s, e, seed, state), place)
}

// Offer, a part: some numbers of the current row of A.
#[unsafe(no_mangle)]
pub extern "C" fn wim_rows_offer_part(part: &[u32], state: &mut [u32], place: &mut u64) -> u32
    ensures { record { number = result; place = place.new; state = state.new } ≡ part_result Call.Offer state.old part.now }
{
    told::tell_verdict(rows::offer_part(part, state), place)
}

// Offer, end: the opening message.
#[unsafe(no_mangle)]
pub extern "C" fn wim_rows_offer_end(
    state: &mut [u32],
    message: &mut [u8],
    place: &mut u64,
    written: &mut u64,
) -> u32
    ensures { record { answer = seen (record { number = result; place = place.new; counts = written.new }) message.new; state = state.new } ≡ offer_end_result state.old (length message.old) }
{
    told::tell(rows::offer_end(state, message), place, written)
}

// Reply, begin: the opening message, the secret s' and the noise e' and e'' into the state.
#[unsafe(no_mangle)]
pub extern "C" fn wim_rows_reply_begin(
    scheme: u32,
    opening: &[u8],
    s1: &[i32],
    e1: &[i32],
    e2: &[i32],
    state: &mut [u32],
    place: &mut u64,
) -> u32
    ensures { record { number = result; place = place.new; state = state.new } ≡ reply_begin_result (frodo_of_lem scheme) (reply_begin_lem opening.now s1.now e1.now e2.now) (length state.old) }
{
    told::tell_verdict(rows::reply_begin(scheme, opening, s1, e1, e2, state), place)
}

// Reply, a part: some numbers of the current row of A.
#[unsafe(no_mangle)]
pub extern "C" fn wim_rows_reply_part(part: &[u32], state: &mut [u32], place: &mut u64) -> u32
    ensures { record { number = result; place = place.new; state = state.new } ≡ part_result Call.Reply state.old part.now }
{
    told::tell_verdict(rows::reply_part(part, state), place)
}

// Reply, end: the reply message, the replier's key and its digest.
#[unsafe(no_mangle)]
pub extern "C" fn wim_rows_reply_end(
    state: &mut [u32],
    message: &mut [u8],
    key: &mut [u8],
    digest: &mut [u8],
    place: &mut u64,
    written: &mut u64,
    keyed: &mut u64,
    digested: &mut u64,
) -> u32
    ensures { record {
      answer = reply_seen (reply_numbers result place.new written.new keyed.new digested.new) message.new key.new digest.new;
      state = state.new;
    } ≡ reply_end_result state.old (reply_rooms message.old key.old digest.old) }
{
    let answer = rows::reply_end(state, message, key, digest);
    told::tell_reply(answer, place, written, keyed, digested)
}
