// Finish's key, once the scheme is known, lengths and rooms are tested and the output holds zeros: the reply's numbers, then the secret, in 01's order; then the
// key into the part of the output that it takes.
ghost use Rattle.std.specs.Prelude.{Some};
ghost use Rattle.std.specs.Prelude.{◌≡◌, ◌^◌, length, replicate, drop, ◌++◌};
ghost use Rattle.schemes.specs.Schemes.{fixed_of};
ghost use Rattle.lists.specs.First.{peak_of_lem};
ghost use Rattle.packing.specs.Packing.{packed};
ghost use Rattle.refusals.specs.Refusals.{secrets_in_lem, ◌then◌};
ghost use Rattle.refusals.specs.Steps.{Laid, outcome};
ghost use Rattle.refusals.specs.Refusals.{pass};
ghost use Rattle.values.specs.Fit.{Counted};
ghost use Rattle.values.specs.Keys as settled;
ghost use Rattle.finish.specs.Finish.{finish, finish_key, finish_slack};
ghost use Rattle.finish.specs.Inside.{finish_sizes_lem, finish_rest, key_from, slack_from, Derives, Finishing};

use lists::Peak;
use refusals::Refusal;
use schemes::Scheme;

// The key of w under the hints, then the slack used; entries is room for what lies between, and w becomes the slacks.
fn settle(scheme: Scheme, hints: &[u32], w: &mut [u32], entries: &mut [u32], key: &mut [u8]) -> Peak
    requires counted { Counted (fixed_of scheme).mixed (fixed_of scheme).q w.old × (length entries.old ≡ (fixed_of scheme).groups) }
    requires counted_2 { Counted (fixed_of scheme).mixed (2 ^ (fixed_of scheme).hintbits) hints.now × (length key.old ≡ (fixed_of scheme).key) }
    ensures key_value { key.new ≡ packed (fixed_of scheme).keybits (settled.peers scheme hints.now w.old) }
    ensures value { result ≡ peak_of_lem (settled.slacks scheme hints.now w.old) }
{
    values::settle::peers(scheme, hints, w, entries);
    wire::lay_key(scheme, entries, key);
    values::settle::slacks(scheme, hints, w);
    lists::peak_of(w)
}

// The key and the slack used, of the reply and its numbers u, with room for n values and g groups, of which no scheme has more than 1024.
fn derive(
    scheme: Scheme,
    n: usize,
    g: usize,
    reply: &[u8],
    u: &[u32],
    s: &[i32],
    key: &mut [u8],
) -> Peak
    requires derives { Derives scheme (finish reply.now s.now) u.now × (length key.old ≡ (fixed_of scheme).key) }
    requires n_value { (n ≡ (fixed_of scheme).mixed) × (g ≡ (fixed_of scheme).groups) }
    ensures key_value { key.new ≡ key_from scheme u.now (finish reply.now s.now) }
    ensures value { result ≡ slack_from scheme u.now (finish reply.now s.now) }
{
    let mut w = [0u32; 1024];
    let mut hints = [0u32; 1024];
    let mut entries = [0u32; 1024];
    values::products::multiply(scheme, u, s, &mut w[..n]);
    wire::take_hints(scheme, reply, &mut hints[..n]);
    settle(scheme, &hints[..n], &mut w[..n], &mut entries[..g], key)
}

// The secret's test, then the key. What is refused leaves zeros.
fn with_secret(
    scheme: Scheme,
    reply: &[u8],
    u: &[u32],
    s: &[i32],
    key: &mut [u8],
) -> Result<Peak, Refusal>
    requires { Finishing scheme (finish reply.now s.now) key.old × Counted (fixed_of scheme).secret (fixed_of scheme).q u.now }
    ensures value { result ≡ outcome (secrets_in_lem (fixed_of scheme).largest s.now) (slack_from scheme u.now (finish reply.now s.now)) }
    ensures laid { Laid (secrets_in_lem (fixed_of scheme).largest s.now) (key_from scheme u.now (finish reply.now s.now)) key.old key.new }
{
    let f = scheme.fixed();
    refusals::secrets_in(f.largest, s)?;
    Ok(derive(scheme, f.mixed, f.groups, reply, u, s, key))
}

// The reply's n numbers, of which no scheme has more than 6912, then the secret's test and the key. A refused message ends the call here, with its place.
fn with_reply(
    scheme: Scheme,
    n: usize,
    reply: &[u8],
    s: &[i32],
    key: &mut [u8],
) -> Result<Peak, Refusal>
    requires { Finishing scheme (finish reply.now s.now) key.old × (n ≡ (fixed_of scheme).secret) }
    ensures value { result ≡ outcome (finish_rest scheme (finish reply.now s.now)) (finish_slack (Some scheme) (finish reply.now s.now)) }
    ensures laid { Laid (finish_rest scheme (finish reply.now s.now)) (finish_key (Some scheme) (finish reply.now s.now)) key.old key.new }
{
    let mut u = [0u32; 6912];
    let v = wire::take_reply(scheme, reply, &mut u[..n]);
    let Ok(()) = v else {
        key.fill(0);
        return v.map(|()| Peak { most: 0, at: 0 });
    };
    with_secret(scheme, reply, &u[..n], s, key)
}

// The key into the front of its output, where lengths and rooms have passed.
pub(crate) fn key_in(
    scheme: Scheme,
    reply: &[u8],
    s: &[i32],
    key: &mut [u8],
) -> Result<Peak, Refusal>
    requires key_value { finish_sizes_lem scheme (finish reply.now s.now) (length key.old) ≡ pass }
    requires key_value_2 { key.old ≡ replicate (length key.old) 0 }
    ensures value { result ≡ outcome (finish_rest scheme (finish reply.now s.now)) (finish_slack (Some scheme) (finish reply.now s.now)) }
    ensures laid { Laid (finish_rest scheme (finish reply.now s.now)) (finish_key (Some scheme) (finish reply.now s.now) ++ drop (fixed_of scheme).key key.old) key.old key.new }
{
    let f = scheme.fixed();
    let k = f.key;
    with_reply(scheme, f.secret, reply, s, &mut key[..k])
}
