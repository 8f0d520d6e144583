// The tests of Finish that come first, in 01's order: of its lengths, and of the room for its key.
ghost use Rattle.std.specs.Prelude.{◌≡◌};
ghost use Rattle.finish.specs.Finish.{finish};
ghost use Rattle.finish.specs.Inside.{finish_sizes_lem};

use refusals::Refusal;
use schemes::Scheme;

pub(crate) fn finish_sizes(
    scheme: Scheme,
    reply: &[u8],
    s: &[i32],
    room: usize,
) -> Result<(), Refusal>
    ensures { result ≡ finish_sizes_lem scheme (finish reply.now s.now) room }
{
    let f = scheme.fixed();
    refusals::length_is(reply.len(), f.reply)?;
    refusals::length_is(s.len(), f.secret)?;
    refusals::room_for(room, f.key)
}
