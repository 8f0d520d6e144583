// What the calls ask of lent slices: the place of a refusal, the first difference of two lists, and the largest number with its place. Numbers are u32, secrets and
// noise values i32; the laws that the proofs cite are stated once over the element.

#![tactic(auto)]

ghost use Rattle.std.specs.Prelude.{◌≡◌, ◌≤◌, ℕ, length, leb, pos, nat_abs};
ghost use Rattle.lists.specs.First.{first_where, largest_by, first_over_lem, first_beyond_lem, first_apart_lem, peak_of_lem};

pub mod each;

// The largest number of a list and the first index at which it stands; 0 and 0 of an empty list.
#[derive(Clone, Copy)]
pub struct Peak {
    pub most: u32,
    pub at: usize,
}

// A number and its size, which is how far it lies from 0.
trait Size: Copy {
    ghost zero: { Self };

    ghost size_of: { Self → ℕ };

    fn size(self) -> u32
        ensures { result ≡ size_of self };
}

impl Size for u32 {
    ghost zero = { 0 };

    ghost size_of = { λ x. x };

    fn size(self) -> u32 {
        self
    }
}

impl Size for i32 {
    ghost zero = { pos 0 };

    ghost size_of = { nat_abs };

    fn size(self) -> u32 {
        numbers::size32(self)
    }
}

// The largest size, 0 where there is none. Without an exit from its loop it runs many numbers at a time.
fn largest<T: Size>(xs: &[T]) -> u32
    ensures { result ≡ largest_by T.size_of xs.now }
{
    let mut most = 0;
    for x in xs {
        most = most.max(x.size());
    }
    most
}

// The index of the first number whose size is q or more, or the length where none is.
fn search<T: Size>(q: u64, xs: &[T]) -> usize
    ensures { result ≡ first_where (λ x. leb q (T.size_of x)) xs.now }
{
    for (i, x) in xs.iter().enumerate() {
        if q <= x.size() as u64 {
            return i;
        }
    }
    xs.len()
}

// Every bit that some number has: no number is larger, and where q is a power of two, all are below q exactly if this is. Plain x86-64 has an instruction
// for it and none for the larger of two.
fn bits_of(xs: &[u32]) -> u32
    ensures { largest_by (λ x. x) xs.now ≤ result }
{
    let mut bits = 0;
    for x in xs {
        bits |= *x;
    }
    bits
}

// The index of the first number that is q or more, or the length where none is. Good input, however long, is passed at the speed of its bits where q is a
// power of two, else of its largest.
pub fn first_over(q: u32, xs: &[u32]) -> usize
    ensures { result ≡ first_over_lem q xs.now }
{
    if bits_of(xs) < q {
        return xs.len();
    }
    if largest(xs) < q {
        return xs.len();
    }
    search(q as u64, xs)
}

// The index of the first number that is q or more, or the length where none is, of numbers that may be secret: every one is looked at, and no branch is on any.
fn search_all(q: u32, xs: &[u32]) -> usize
    ensures { result ≡ first_over_lem q xs.now }
{
    let mut passed: usize = 0;
    let mut still: usize = 1;
    for x in xs {
        still = still * (*x < q) as usize;
        passed += still;
    }
    passed
}

// The largest number and where it stands first: the first that is no less equals it.
pub fn peak_of(xs: &[u32]) -> Peak
    ensures { result ≡ peak_of_lem xs.now }
{
    let most = largest(xs);
    let at = search_all(most, xs);
    Peak { most, at }
}

// The index of the first value that lies further than the bound from 0, or the length where none does. Good values are passed at the speed of their largest.
pub fn first_beyond(bound: u32, s: &[i32]) -> usize
    ensures { result ≡ first_beyond_lem bound s.now }
{
    if largest(s) <= bound {
        return s.len();
    }
    search(bound as u64 + 1, s)
}

// The first index at which two lists differ, or their length where they do not.
pub fn first_apart(xs: &[u32], ys: &[u32]) -> usize
    requires { length xs.now ≡ length ys.now }
    ensures { result ≡ first_apart_lem xs.now ys.now }
{
    for at in 0..xs.len() {
        if xs[at] != ys[at] {
            return at;
        }
    }
    xs.len()
}
