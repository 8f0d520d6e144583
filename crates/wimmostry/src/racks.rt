// The calls on a rack behind a pointer, eight records of 131 lent bytes: 02, request k. Each takes the rack and a studio's number first, and then what the
// plain call takes.
ghost use Rattle.std.specs.Prelude.{◌≡◌, length};
ghost use Rattle.refusals.specs.Seen.{seen};
ghost use Rattle.offer.specs.Offer.{offer};
ghost use Rattle.reply.specs.Reply.{reply, reply_rooms, reply_seen};
ghost use Rattle.finish.specs.Finish.{finish, finish_rooms, finish_seen};
ghost use Rattle.session.specs.Table.{offering, replying, finishing, closing};
ghost use Rattle.session.specs.Seen.{of_offer, of_reply, of_finish, of_close, turn};
ghost use Rattle.rack.specs.Slots.{moved_in, cleared};
ghost use Rattle.told.specs.Numbers.{reply_numbers, finish_numbers};

// Offer for a studio, in its own slot.
#[unsafe(no_mangle)]
pub extern "C" fn wim_rack_offer(
    rack: &mut [u8],
    studio: u32,
    scheme: u32,
    a: &[u32],
    s: &[i32],
    e: &[i32],
    seed: &[u8],
    message: &mut [u8],
    place: &mut u64,
    written: &mut u64,
) -> u32
    ensures { turn rack.new (of_offer (seen (record { number = result; place = place.new; counts = written.new }) message.new))
        ≡ moved_in rack.old studio (offering scheme (offer a.now s.now e.now seed.now) (length message.old)) }
{
    let answer = rack::offer(rack, studio, scheme, a, s, e, seed, message);
    told::tell(answer, place, written)
}

// Reply for one.
#[unsafe(no_mangle)]
pub extern "C" fn wim_rack_reply(
    rack: &mut [u8],
    studio: u32,
    scheme: u32,
    opening: &[u8],
    a: &[u32],
    s1: &[i32],
    e1: &[i32],
    e2: &[i32],
    coins: &[u8],
    message: &mut [u8],
    key: &mut [u8],
    digest: &mut [u8],
    place: &mut u64,
    written: &mut u64,
    keyed: &mut u64,
    digested: &mut u64,
) -> u32
    ensures { turn rack.new (of_reply (reply_seen (reply_numbers result place.new written.new keyed.new digested.new) message.new key.new digest.new))
        ≡ moved_in rack.old studio (replying scheme (reply opening.now a.now s1.now e1.now e2.now coins.now) (reply_rooms message.old key.old digest.old)) }
{
    let answer = rack::reply(
        rack, studio, scheme, opening, a, s1, e1, e2, coins, message, key, digest,
    );
    told::tell_reply(answer, place, written, keyed, digested)
}

// Finish for one.
#[unsafe(no_mangle)]
pub extern "C" fn wim_rack_finish(
    rack: &mut [u8],
    studio: u32,
    scheme: u32,
    reply: &[u8],
    s: &[i32],
    key: &mut [u8],
    digest: &mut [u8],
    place: &mut u64,
    keyed: &mut u64,
    digested: &mut u64,
    slack: &mut u64,
    index: &mut u64,
) -> u32
    ensures { turn rack.new (of_finish (finish_seen (finish_numbers result place.new keyed.new digested.new slack.new index.new) key.new digest.new))
        ≡ moved_in rack.old studio (finishing scheme (finish reply.now s.now) (finish_rooms key.old digest.old)) }
{
    let answer = rack::finish(rack, studio, scheme, reply, s, key, digest);
    told::tell_finish(answer, place, keyed, digested, slack, index)
}

// Close for one: its slot's number and zeros, whatever the slot held.
#[unsafe(no_mangle)]
pub extern "C" fn wim_rack_close(rack: &mut [u8], studio: u32, place: &mut u64) -> u32
    ensures { turn rack.new (of_close (record { number = result; place = place.new; counts = 0 })) ≡ moved_in rack.old studio closing }
{
    told::tell_verdict(rack::close(rack, studio), place)
}

// An empty rack: eight idle records with their numbers.
#[unsafe(no_mangle)]
pub extern "C" fn wim_rack_clear(rack: &mut [u8], place: &mut u64) -> u32
    ensures { record { number = result; place = place.new; rack = rack.new } ≡ cleared rack.old }
{
    told::tell_verdict(rack::clear(rack), place)
}
