// The values that both ends compute, by the scheme.
ghost use Rattle.std.specs.Prelude.{◌≡◌, ◌<◌, length};
ghost use Rattle.std.specs.Fn.{FnOnceTakesAtMut, FnOnceReturnsAtMut};
ghost use Rattle.schemes.specs.Schemes.{fixed_of};
ghost use Rattle.lists.specs.Ranges.{Below};
ghost use Rattle.lists.specs.First.{first_over_lem};
ghost use Rattle.values.specs.Fit.{Counted, Small};
ghost use Rattle.values.specs.Values.{offered, replied, mixed_value, bare_value};

use schemes::{Family, Scheme};

// Makes `out` where no number of a is q or more. The answer is the place of the first that is, or how many there are.
#[tactic(auto, using(crate::proofs::Valuing::none_over, crate::proofs::Valuing::over_none))]
fn make_where_below<F: FnOnce(&mut [u32])>(q: u32, a: &[u32], out: &mut [u32], make: F) -> usize
    requires q_nonzero { 0 < q }
    requires may { Below q a.now → FnOnceTakesAtMut F.FnOnce make out.old }
    ensures value { result ≡ first_over_lem q a.now }
    ensures made { Below q a.now → FnOnceReturnsAtMut F.FnOnce make out.old tt out.new }
{
    let at = lists::first_over(q, a);
    if at < a.len() {
        return at;
    }
    make(out);
    at
}

// b = as + e, as it travels, where no public number is q or more; the answer is the place of the first that is, or how many there are.
#[tactic(auto, unfolding(crate::specs::Values::offered))]
pub fn offer(scheme: Scheme, a: &[u32], s: &[i32], e: &[i32], out: &mut [u32]) -> usize
    requires a_len { (length a.now ≡ (fixed_of scheme).public) × (length out.old ≡ (fixed_of scheme).secret) }
    requires small { Small (fixed_of scheme).secret (fixed_of scheme).largest s.now × Small (fixed_of scheme).noise (fixed_of scheme).largest e.now }
    ensures value { result ≡ first_over_lem (fixed_of scheme).q a.now }
    ensures out_value { Below (fixed_of scheme).q a.now → out.new ≡ offered scheme a.now s.now e.now }
{
    let f = scheme.fixed();
    match scheme.family() {
        Family::Bcns => make_where_below(f.q, a, out, |out| polynomial::mix(a, s, e, out)),
        Family::NewHope => {
            make_where_below(
                f.q,
                a,
                out,
                |out| transform::on_transforms::mix(a, s, e, out),
            )
        }
        Family::Frodo => matrix::mix_right(f.q, f.n, a, s, e, out),
    }
}

// u = as' + e', as it travels, and the replier's v = bs' + e'', of the opening's numbers b, which become u; likewise.
#[tactic(auto, using(crate::proofs::Valuing::none_over, crate::proofs::Valuing::over_none), unfolding(crate::specs::Values::replied, crate::specs::Values::mixed_value))]
pub fn reply(
    scheme: Scheme,
    a: &[u32],
    s1: &[i32],
    e1: &[i32],
    e2: &[i32],
    b: &mut [u32],
    v: &mut [u32],
) -> usize
    requires a_len { (length a.now ≡ (fixed_of scheme).public) × (length v.old ≡ (fixed_of scheme).mixed) }
    requires counted { Counted (fixed_of scheme).secret (fixed_of scheme).q b.old }
    requires small { Small (fixed_of scheme).secret (fixed_of scheme).largest s1.now × Small (fixed_of scheme).noise (fixed_of scheme).largest e1.now }
    requires small_2 { Small (fixed_of scheme).mixed (fixed_of scheme).largest e2.now }
    ensures value { result ≡ first_over_lem (fixed_of scheme).q a.now }
    ensures b_value { Below (fixed_of scheme).q a.now → b.new ≡ replied scheme a.now s1.now e1.now }
    ensures v_value { Below (fixed_of scheme).q a.now → v.new ≡ mixed_value scheme b.old s1.now e2.now }
{
    let f = scheme.fixed();
    match scheme.family() {
        Family::Bcns => {
            polynomial::mix(b, s1, e2, v);
            make_where_below(f.q, a, b, |b| polynomial::mix(a, s1, e1, b))
        }
        // Two lists are made at once, hence no call of `make_where_below`: of what a closure borrows and changes its caller knows nothing.
        Family::NewHope => {
            let at = lists::first_over(f.q, a);
            if at == a.len() {
                transform::on_transforms::reply(a, s1, e1, e2, b, v);
            }
            at
        }
        Family::Frodo => {
            matrix::mix_eight(f.q, f.n, s1, b, e2, v);
            matrix::mix_left(f.q, f.n, s1, a, e1, b)
        }
    }
}

// The replier's value v = bs' + e'', of the opening's numbers b.
#[tactic(auto, unfolding(crate::specs::Values::mixed_value))]
pub fn mix(scheme: Scheme, b: &[u32], s1: &[i32], e2: &[i32], out: &mut [u32])
    requires counted { Counted (fixed_of scheme).secret (fixed_of scheme).q b.now × (length out.old ≡ (fixed_of scheme).mixed) }
    requires small { Small (fixed_of scheme).secret (fixed_of scheme).largest s1.now × Small (fixed_of scheme).mixed (fixed_of scheme).largest e2.now }
    ensures { out.new ≡ mixed_value scheme b.now s1.now e2.now }
{
    let f = scheme.fixed();
    match scheme.family() {
        Family::Bcns => polynomial::mix(b, s1, e2, out),
        Family::NewHope => transform::on_transforms::value(b, s1, e2, out),
        Family::Frodo => matrix::mix_eight(f.q, f.n, s1, b, e2, out),
    }
}

// The initiator's value w = us, of the reply's numbers u.
#[tactic(auto, unfolding(crate::specs::Values::bare_value))]
pub fn multiply(scheme: Scheme, u: &[u32], s: &[i32], out: &mut [u32])
    requires counted { Counted (fixed_of scheme).secret (fixed_of scheme).q u.now × (length out.old ≡ (fixed_of scheme).mixed) }
    requires small { Small (fixed_of scheme).secret (fixed_of scheme).largest s.now }
    ensures { out.new ≡ bare_value scheme u.now s.now }
{
    let f = scheme.fixed();
    match scheme.family() {
        Family::Bcns => polynomial::multiply(u, s, out),
        Family::NewHope => transform::on_transforms::multiply(u, s, out),
        Family::Frodo => matrix::multiply(f.q, f.n, u, s, out),
    }
}
