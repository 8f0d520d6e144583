// The calls from random bytes: open and answer, plain and on a session behind a pointer. Finish ends what open began.
ghost use Rattle.std.specs.Prelude.{◌≡◌};
ghost use Rattle.schemes.specs.Schemes.{scheme_of_lem};
ghost use Rattle.noise.specs.Expand.{rule_of_lem};
ghost use Rattle.reply.specs.Reply.{reply_rooms, reply_seen};
ghost use Rattle.exchange.specs.Open.{open_lent, open_rooms, open_seen, open_result};
ghost use Rattle.exchange.specs.Answer.{answer_lent, answer_result};
ghost use Rattle.session.specs.Seen.{turn};
ghost use Rattle.session_bytes.specs.Drawn.{open_moved, answer_moved};
ghost use Rattle.told.specs.Numbers.{reply_numbers};

// Open: the opening message and the secret s, from the public numbers a, the table and random bytes.
#[unsafe(no_mangle)]
pub extern "C" fn wim_open(
    scheme: u32,
    rule: u32,
    a: &[u32],
    table: &[u64],
    random: &[u8],
    opening: &mut [u8],
    s: &mut [i32],
    place: &mut u64,
    opened: &mut u64,
    valued: &mut u64,
) -> u32
    ensures { open_seen
        (record { number = result; place = place.new; counts = record { opening = opened.new; s = valued.new } })
        opening.new s.new ≡ open_result (scheme_of_lem scheme) (rule_of_lem rule) (open_lent a.now table.now random.now) (open_rooms opening.old s.old) }
{
    let answer = exchange::open(scheme, rule, a, table, random, opening, s);
    told::tell_open(answer, place, opened, valued)
}

// Answer: the reply message, the replier's key and its digest, from the opening message, the public numbers a, the table and random bytes.
#[unsafe(no_mangle)]
pub extern "C" fn wim_answer(
    scheme: u32,
    rule: u32,
    opening: &[u8],
    a: &[u32],
    table: &[u64],
    random: &[u8],
    message: &mut [u8],
    key: &mut [u8],
    digest: &mut [u8],
    place: &mut u64,
    written: &mut u64,
    keyed: &mut u64,
    digested: &mut u64,
) -> u32
    ensures { reply_seen (reply_numbers result place.new written.new keyed.new digested.new) message.new key.new digest.new
        ≡ answer_result (scheme_of_lem scheme) (rule_of_lem rule) (answer_lent opening.now a.now table.now random.now) (reply_rooms message.old key.old digest.old) }
{
    let answer = exchange::answer(
        scheme, rule, opening, a, table, random, message, key, digest,
    );
    told::tell_reply(answer, place, written, keyed, digested)
}

// Open on a session: when idle.
#[unsafe(no_mangle)]
pub extern "C" fn wim_session_open(
    session: &mut [u8],
    scheme: u32,
    rule: u32,
    a: &[u32],
    table: &[u64],
    random: &[u8],
    opening: &mut [u8],
    s: &mut [i32],
    place: &mut u64,
    opened: &mut u64,
    valued: &mut u64,
) -> u32
    ensures { turn session.new
        (open_seen
        (record { number = result; place = place.new; counts = record { opening = opened.new; s = valued.new } })
        opening.new s.new) ≡ open_moved session.old scheme (rule_of_lem rule) (open_lent a.now table.now random.now) (open_rooms opening.old s.old) }
{
    let answer = session_bytes::open(session, scheme, rule, a, table, random, opening, s);
    told::tell_open(answer, place, opened, valued)
}

// Answer on a session: when idle. The session keeps the key too.
#[unsafe(no_mangle)]
pub extern "C" fn wim_session_answer(
    session: &mut [u8],
    scheme: u32,
    rule: u32,
    opening: &[u8],
    a: &[u32],
    table: &[u64],
    random: &[u8],
    message: &mut [u8],
    key: &mut [u8],
    digest: &mut [u8],
    place: &mut u64,
    written: &mut u64,
    keyed: &mut u64,
    digested: &mut u64,
) -> u32
    ensures { turn session.new (reply_seen (reply_numbers result place.new written.new keyed.new digested.new) message.new key.new digest.new)
        ≡ answer_moved session.old scheme (rule_of_lem rule) (answer_lent opening.now a.now table.now random.now) (reply_rooms message.old key.old digest.old) }
{
    let answer = session_bytes::answer(
        session, scheme, rule, opening, a, table, random, message, key, digest,
    );
    told::tell_reply(answer, place, written, keyed, digested)
}
