// NewHope's reconciliation of groups of four entries: 01, "Reconciliation", as amended by request d (docs/RULES.md); q, the size 1024 and the 256
// groups are those of `schemes`.

#![tactic(auto)]

ghost use Rattle.std.specs.Prelude.{◌≡◌, cond, ◌+◌, ◌*◌, ◌/◌, ◌^◌, ◌≤◌, ◌<◌, ltb, pos, ◌-ℤ◌, length};
ghost use Rattle.numbers.specs.Residue.{residue};
ghost use Rattle.lists.specs.Ranges.{Below};
ghost use Rattle.newhope.specs.Group.{q, size, groups, up_of, down_of, off_of, offs_of, term_of, hint_of, bit_of, group_of, hints_of, peers_of};
ghost use Rattle.newhope.specs.Shown.{BelowQ, Hint};

use lists::each::set_each;

// q, 2q and 8q, and the number of groups.
const Q: u32 = schemes::NewHope::Q;

const TWICE: u32 = 2 * Q;

const EIGHT: u32 = 8 * Q;

const GROUPS: usize = schemes::NewHope::GROUPS;

// What a group has at its entries i, i + 256, i + 512 and i + 768. A struct and no array: the clauses of `hint` and `bit` and the theorem `Agreement` name
// its entries.
#[derive(Clone, Copy)]
pub struct Four {
    pub e0: u32,
    pub e1: u32,
    pub e2: u32,
    pub e3: u32,
}

// A difference of two numbers: the one place where numbers become signed.
fn minus(x: u32, y: u32) -> i32
    requires { (x < 2 ^ 30) × (y < 2 ^ 30) }
    ensures { result ≡ pos x -ℤ pos y }
{
    (x as i32) - (y as i32)
}

// P of one entry, at most 4: X = 2x + b is below 2q.
#[tactic(auto, unfolding(crate::specs::Group::up_of))]
fn up(b: u32, x: u32) -> u32
    requires { (b < 2) × (x < q) }
    ensures { (result ≡ up_of b x) × (result < 5) }
{
    (4 * (2 * x + b) + Q) / TWICE
}

// Q of one entry, at most 3.
#[tactic(auto, unfolding(crate::specs::Group::down_of))]
fn down(b: u32, x: u32) -> u32
    requires { (b < 2) × (x < q) }
    ensures { (result ≡ down_of b x) × (result < 5) }
{
    2 * (2 * x + b) / Q
}

// |2X - q_p|, at most half of q.
fn off(b: u32, x: u32) -> u32
    requires { (b < 2) × (x < q) }
    ensures { (result ≡ off_of b x) × (result ≤ q / 2) }
{
    let p = up(b, x);
    numbers::size32(minus(2 * (2 * x + b), Q * p))
}

// The sum of the four.
#[tactic(auto, unfolding(crate::specs::Group::offs_of))]
fn offs(b: u32, v: Four) -> u32
    requires { (b < 2) × BelowQ v }
    ensures { result ≡ offs_of b v }
{
    off(b, v.e0) + off(b, v.e1) + off(b, v.e2) + off(b, v.e3)
}

// The vector's entry at x, where the four sum to s: P or Q.
#[tactic(auto, using(std::proofs::lemmas::Bool::Decides::nat_tests))]
fn pick(b: u32, x: u32, s: u32) -> u32
    requires { (b < 2) × (x < q) }
    ensures { (result ≡ cond (ltb s q) (up_of b x) (down_of b x)) × (result < 5) }
{
    if s < Q { up(b, x) } else { down(b, x) }
}

// k, where the four sum to s.
#[tactic(auto, using(std::proofs::lemmas::Bool::Decides::nat_tests))]
fn side(s: u32) -> u32
    ensures { (result ≡ cond (ltb s q) 0 1) × (result < 2) }
{
    if s < Q { 0 } else { 1 }
}

// p - r modulo 4.
fn less(p: u32, r: u32) -> u32
    requires { (p < 5) × (r < 5) }
    ensures { result ≡ residue 4 (pos p -ℤ pos r) }
{
    numbers::residue32(minus(p, r), 4)
}

// The hint of the replier's group and its coin bit.
pub fn hint(b: u32, v: Four) -> Four
    requires { (b < 2) × BelowQ v }
    ensures { (result ≡ hint_of b v) × Hint result }
{
    let s = offs(b, v);
    let p0 = pick(b, v.e0, s);
    let p1 = pick(b, v.e1, s);
    let p2 = pick(b, v.e2, s);
    let p3 = pick(b, v.e3, s);
    let k = side(s);
    Four {
        e0: less(p0, p3),
        e1: less(p1, p3),
        e2: less(p2, p3),
        e3: (k + 2 * p3) % 4,
    }
}

// How far 8x - qc lies from the nearest multiple of 8q: at most 4q.
fn term(c: u32, x: u32) -> u32
    requires { (c < 16) × (x < q) }
    ensures { (result ≡ term_of c x) × (result ≤ 4 * q) }
{
    numbers::distance32(minus(8 * x, Q * c), EIGHT)
}

// The bit of either end: 1 near, 0 far.
#[tactic(auto, using(std::proofs::lemmas::Bool::Decides::nat_tests), unfolding(crate::specs::Group::bit_of, crate::specs::Group::sum_of))]
pub fn bit(h: Four, x: Four) -> u32
    requires { Hint h × BelowQ x }
    ensures { result ≡ bit_of h x }
{
    let t0 = term(2 * h.e0 + h.e3, x.e0);
    let t1 = term(2 * h.e1 + h.e3, x.e1);
    let t2 = term(2 * h.e2 + h.e3, x.e2);
    let t3 = term(h.e3, x.e3);
    if t0 + t1 + t2 + t3 <= EIGHT { 1 } else { 0 }
}

// Where entry j of group i stands: at i + 256 j.
fn place(i: usize, j: usize) -> usize
    requires { (i < groups) × (j < 4) }
    ensures { (result ≡ i + groups * j) × (result < size) }
{
    i + GROUPS * j
}

// Group i of 1,024 numbers.
#[tactic(auto, unfolding(crate::specs::Group::group_of))]
fn group(xs: &[u32], i: usize) -> Four
    requires { (length xs.now ≡ size) × (i < groups) }
    ensures { result ≡ group_of xs.now i }
{
    Four {
        e0: xs[place(i, 0)],
        e1: xs[place(i, 1)],
        e2: xs[place(i, 2)],
        e3: xs[place(i, 3)],
    }
}

// Of all 256 groups: hint j of group i at i + 256 j.
#[tactic(auto, using(crate::proofs::Groups::small_group, crate::proofs::Spread::spread_start))]
pub fn hints(coins: &[u32], v: &[u32], out: &mut [u32])
    requires coins_len { (length coins.now ≡ groups) × Below 2 coins.now }
    requires v_len { (length v.now ≡ size) × Below q v.now × (length out.old ≡ size) }
    ensures { out.new ≡ hints_of coins.now v.now }
{
    for i in 0..GROUPS {
        let h = hint(coins[i], group(v, i));
        out[place(i, 0)] = h.e0;
        out[place(i, 1)] = h.e1;
        out[place(i, 2)] = h.e2;
        out[place(i, 3)] = h.e3;
    }
}

// The bits of all 256 groups under their hints: the initiator's, and with its own hints the replier's.
#[tactic(auto, using(crate::proofs::Groups::small_group, crate::proofs::Groups::hint_group))]
pub fn peers(hints: &[u32], w: &[u32], out: &mut [u32])
    requires hints_len { (length hints.now ≡ size) × Below 4 hints.now }
    requires w_len { (length w.now ≡ size) × Below q w.now × (length out.old ≡ groups) }
    ensures { out.new ≡ peers_of hints.now w.now }
{
    set_each(out, |i, _| bit(group(hints, i), group(w, i)));
}
