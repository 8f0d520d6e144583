// Hints, key entries and the slack used, by the scheme.
ghost use Rattle.std.specs.Prelude.{◌≡◌, ◌^◌, length};
ghost use Rattle.schemes.specs.Schemes.{fixed_of};
ghost use Rattle.values.specs.Fit.{Counted};
ghost use Rattle.values.specs.Keys.{hints, keys, peers, slacks};

use schemes::{Family, Scheme};

// The hints of the replier's value.
#[tactic(auto, unfolding(crate::specs::Keys::hints))]
pub fn hints(scheme: Scheme, coins: &[u32], v: &[u32], out: &mut [u32])
    requires counted { Counted (fixed_of scheme).mixed (fixed_of scheme).q v.now × (length out.old ≡ (fixed_of scheme).mixed) }
    requires counted_2 { Counted (fixed_of scheme).groups (2 ^ (fixed_of scheme).coinbits) coins.now }
    ensures { out.new ≡ hints scheme coins.now v.now }
{
    match scheme.family() {
        Family::Bcns => bcns::hints(coins, v, out),
        Family::NewHope => newhope::hints(coins, v, out),
        Family::Frodo => {
            let f = scheme.fixed();
            frodo::hints(frodo::interval(scheme), f.keybits, v, out)
        }
    }
}

// The key entries of the replier's value; in NewHope they are the bits of its own hints.
#[tactic(auto, using(crate::proofs::Settling::own_hints), unfolding(crate::specs::Keys::keys, crate::specs::Keys::hints))]
pub fn keys(scheme: Scheme, coins: &[u32], own: &[u32], v: &[u32], out: &mut [u32])
    requires counted { Counted (fixed_of scheme).mixed (fixed_of scheme).q v.now × (length out.old ≡ (fixed_of scheme).groups) }
    requires counted_2 { Counted (fixed_of scheme).groups (2 ^ (fixed_of scheme).coinbits) coins.now }
    requires own_value { own.now ≡ hints scheme coins.now v.now }
    ensures { out.new ≡ keys scheme coins.now v.now }
{
    match scheme.family() {
        Family::Bcns => bcns::keys(coins, v, out),
        Family::NewHope => newhope::peers(own, v, out),
        Family::Frodo => {
            let f = scheme.fixed();
            frodo::keys(frodo::interval(scheme), f.keybits, v, out)
        }
    }
}

// The key entries of the initiator's value under the hints.
#[tactic(auto, unfolding(crate::specs::Keys::peers))]
pub fn peers(scheme: Scheme, given: &[u32], w: &[u32], out: &mut [u32])
    requires counted { Counted (fixed_of scheme).mixed (fixed_of scheme).q w.now × (length out.old ≡ (fixed_of scheme).groups) }
    requires counted_2 { Counted (fixed_of scheme).mixed (2 ^ (fixed_of scheme).hintbits) given.now }
    ensures { out.new ≡ peers scheme given.now w.now }
{
    match scheme.family() {
        Family::Bcns => bcns::peers(given, w, out),
        Family::NewHope => newhope::peers(given, w, out),
        Family::Frodo => {
            let f = scheme.fixed();
            frodo::peers(frodo::interval(scheme), f.keybits, given, w, out)
        }
    }
}

// The slack that each entry of the initiator's value uses under the hints, in the entry's place.
#[tactic(auto, unfolding(crate::specs::Keys::slacks))]
pub fn slacks(scheme: Scheme, given: &[u32], w: &mut [u32])
    requires counted { Counted (fixed_of scheme).mixed (fixed_of scheme).q w.old }
    requires counted_2 { Counted (fixed_of scheme).mixed (2 ^ (fixed_of scheme).hintbits) given.now }
    ensures { w.new ≡ slacks scheme given.now w.old }
{
    match scheme.family() {
        Family::Bcns => bcns::slacks(given, w),
        Family::NewHope => w.fill(0),
        Family::Frodo => {
            let f = scheme.fixed();
            frodo::slacks(frodo::interval(scheme), f.keybits, given, w)
        }
    }
}
