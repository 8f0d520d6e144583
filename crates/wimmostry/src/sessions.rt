// The calls on a session behind a pointer, 130 lent bytes: 02, request a. Each takes the session first, and then what the plain call takes.
ghost use Rattle.std.specs.Prelude.{◌≡◌, length};
ghost use Rattle.refusals.specs.Seen.{seen};
ghost use Rattle.offer.specs.Offer.{offer};
ghost use Rattle.reply.specs.Reply.{reply, reply_rooms, reply_seen};
ghost use Rattle.finish.specs.Finish.{finish, finish_rooms, finish_seen};
ghost use Rattle.session.specs.Table.{offering, replying, finishing, closing};
ghost use Rattle.session.specs.Seen.{of_offer, of_reply, of_finish, of_close, turn};
ghost use Rattle.session_bytes.specs.Bytes.{moved_bytes};
ghost use Rattle.told.specs.Numbers.{reply_numbers, finish_numbers};

// Offer on a session of 130 bytes: when idle.
#[unsafe(no_mangle)]
pub extern "C" fn wim_session_offer(
    session: &mut [u8],
    scheme: u32,
    a: &[u32],
    s: &[i32],
    e: &[i32],
    seed: &[u8],
    message: &mut [u8],
    place: &mut u64,
    written: &mut u64,
) -> u32
    ensures { turn session.new (of_offer (seen (record { number = result; place = place.new; counts = written.new }) message.new))
        ≡ moved_bytes session.old (offering scheme (offer a.now s.now e.now seed.now) (length message.old)) }
{
    let answer = session_bytes::offer(session, scheme, a, s, e, seed, message);
    told::tell(answer, place, written)
}

// Reply on a session: when idle. The session keeps the key too.
#[unsafe(no_mangle)]
pub extern "C" fn wim_session_reply(
    session: &mut [u8],
    scheme: u32,
    opening: &[u8],
    a: &[u32],
    s1: &[i32],
    e1: &[i32],
    e2: &[i32],
    coins: &[u8],
    message: &mut [u8],
    key: &mut [u8],
    digest: &mut [u8],
    place: &mut u64,
    written: &mut u64,
    keyed: &mut u64,
    digested: &mut u64,
) -> u32
    ensures { turn session.new (of_reply (reply_seen (reply_numbers result place.new written.new keyed.new digested.new) message.new key.new digest.new))
        ≡ moved_bytes session.old (replying scheme (reply opening.now a.now s1.now e1.now e2.now coins.now) (reply_rooms message.old key.old digest.old)) }
{
    let answer = session_bytes::reply(
        session, scheme, opening, a, s1, e1, e2, coins, message, key, digest,
    );
    told::tell_reply(answer, place, written, keyed, digested)
}

// Finish on a session: when offered, with that scheme. The session keeps the key too.
#[unsafe(no_mangle)]
pub extern "C" fn wim_session_finish(
    session: &mut [u8],
    scheme: u32,
    reply: &[u8],
    s: &[i32],
    key: &mut [u8],
    digest: &mut [u8],
    place: &mut u64,
    keyed: &mut u64,
    digested: &mut u64,
    slack: &mut u64,
    index: &mut u64,
) -> u32
    ensures { turn session.new (of_finish (finish_seen (finish_numbers result place.new keyed.new digested.new slack.new index.new) key.new digest.new))
        ≡ moved_bytes session.old (finishing scheme (finish reply.now s.now) (finish_rooms key.old digest.old)) }
{
    let answer = session_bytes::finish(session, scheme, reply, s, key, digest);
    told::tell_finish(answer, place, keyed, digested, slack, index)
}

// Close on any buffer: it zeroes it, and returns 0 always.
#[unsafe(no_mangle)]
pub extern "C" fn wim_session_close(session: &mut [u8]) -> u32
    ensures { turn session.new (of_close (record { number = result; place = 0; counts = 0 })) ≡ moved_bytes session.old closing }
{
    session_bytes::close(session);
    0
}
