// The tests of Reply, in 01's order. That of the public numbers is the product's own, which reads them once.
ghost use Rattle.std.specs.Prelude.{◌≡◌};
ghost use Rattle.reply.specs.Reply.{reply, reply_rooms_of};
ghost use Rattle.reply.specs.Inside.{reply_lengths_lem, reply_sizes_lem};

use refusals::Refusal;
use schemes::Scheme;

fn reply_lengths(
    scheme: Scheme,
    opening: &[u8],
    a: &[u32],
    s1: &[i32],
    e1: &[i32],
    e2: &[i32],
    coins: &[u8],
) -> Result<(), Refusal>
    ensures { result ≡ reply_lengths_lem scheme (reply opening.now a.now s1.now e1.now e2.now coins.now) }
{
    let f = scheme.fixed();
    refusals::length_is(opening.len(), f.opening)?;
    refusals::length_is(a.len(), f.public)?;
    refusals::length_is(s1.len(), f.secret)?;
    refusals::length_is(e1.len(), f.noise)?;
    refusals::length_is(e2.len(), f.mixed)?;
    refusals::length_is(coins.len(), f.coins)
}

pub(crate) fn reply_sizes(
    scheme: Scheme,
    opening: &[u8],
    a: &[u32],
    s1: &[i32],
    e1: &[i32],
    e2: &[i32],
    coins: &[u8],
    room: usize,
    keyroom: usize,
    digestroom: usize,
) -> Result<(), Refusal>
    ensures { result ≡ reply_sizes_lem scheme (reply opening.now a.now s1.now e1.now e2.now coins.now) (reply_rooms_of room keyroom digestroom) }
{
    let f = scheme.fixed();
    reply_lengths(scheme, opening, a, s1, e1, e2, coins)?;
    refusals::room_for(room, f.reply)?;
    refusals::room_for(keyroom, f.key)?;
    refusals::room_for(digestroom, 32)
}
