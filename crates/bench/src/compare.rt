// Two keys bit by bit, lowest first through the bytes.
ghost use Rattle.std.specs.Prelude.{◌≡◌, ◌*◌, ◌≤◌, ◌+◌, length, take, drop};
ghost use Rattle.bench.specs.Bench.{differing};
ghost use Rattle.bench.specs.Inside.{comparison};

use crate::Compared;
use lists::Peak;

// Two keys by their bits; x and y are room for those. The slack used is passed on.
fn by_bits(own: &[u8], peer: &[u8], slack: Peak, x: &mut [u32], y: &mut [u32]) -> Compared
    requires { (length own.now ≡ length peer.now) × (length x.old ≡ 8 * length own.now) × (length y.old ≡ 8 * length peer.now) }
    ensures { result ≡ comparison (differing own.now peer.now) slack }
{
    packing::unpack(1, own, x);
    packing::unpack(1, peer, y);
    let i = lists::first_apart(x, y);
    if i < x.len() {
        Compared {
            differ: Some(i),
            slack,
        }
    } else {
        Compared {
            differ: None,
            slack,
        }
    }
}

// Two keys of k bytes, one behind the other, with room for the bits of each, of which no scheme has more than 1024.
pub(crate) fn both(k: usize, keys: &[u8], slack: Peak) -> Compared
    requires { (k ≤ 128) × (length keys.now ≡ k + k) }
    ensures { result ≡ comparison (differing (take k keys.now) (drop k keys.now)) slack }
{
    let mut x = [0u32; 1024];
    let mut y = [0u32; 1024];
    let n = 8 * k;
    by_bits(&keys[..k], &keys[k..], slack, &mut x[..n], &mut y[..n])
}
