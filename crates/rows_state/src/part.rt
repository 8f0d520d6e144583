// A part of either call: its turn, then its numbers, then the state. A refused part changes nothing. Its numbers are held back as words until sixteen rows
// have come; then these enter the sums by the products of crate `matrix`. So a part costs a pass, and only the part that ends sixteen rows multiplies. Sums of words
// of 32 bits, to which each part is added as it comes, would hold no rows back; but a vector has half as many such words, plain x86-64 multiplies no four of them,
// and a part has one row where the products take several into a sum: tried in C, such sums took 1.8 to 2.1 times as long. Sixteen divides n in every set, so that no
// row is left at the end. As words sixteen rows take the room that eight would take as numbers.
ghost use Rattle.std.specs.Prelude.{Some};
ghost use Rattle.std.specs.Prelude.{◌≡◌, true, ◌+◌, ◌*◌, ◌%◌, ◌<◌, ◌≤◌, length, take, drop};
ghost use Rattle.schemes.specs.Schemes.{family_of, fixed_of};
ghost use Rattle.schemes.specs.declared.Family.{Family};
ghost use Rattle.lists.specs.Ranges.{Below};
ghost use Rattle.matrix.specs.Steps.{part_term};
ghost use Rattle.matrix.specs.Words.{gained, right_term};
ghost use Rattle.parts.specs.Parts.{wrap, words};
ghost use Rattle.refusals.specs.Refusals.{publics_in_lem};
ghost use Rattle.refusals.specs.Seen.{if_passed};
ghost use Rattle.rows_state.specs.State.{taken, secret_of, sums_of, held_of, fits_in_lem, stepped};
ghost use Rattle.rows_state.specs.Part.{part_tests, state_seen, part_result};
ghost use Rattle.rows_state.specs.Inside.{holding, entered, Sized};

use crate::Call;
use refusals::Refusal;
use schemes::Scheme;

// The part p, as words, behind those that are held back, and in the count.
fn hold(n: usize, at: usize, p: &[u32], state: &mut [u32])
    requires sized { Sized n state.old × (at ≡ taken state.old) × (at % (16 * n) + length p.now ≤ 16 * n) × (at + length p.now ≤ n * n) }
    requires below { Below 65536 p.now }
    ensures { state.new ≡ holding n state.old p.now }
{
    let d = 67 + 8 * n;
    parts::put_words(at % (16 * n), p, &mut state[d..]);
    state[2] = (at + p.len()) as u32;
}

// Offer: the 128 sums of the sixteen rows from row `row` on, with these rows. All three are made words first, the rows one at a time.
fn sums_right(
    n: usize,
    row: usize,
    state: &[u32],
    line: &mut [u16],
    cols: &mut [u16],
    sums: &mut [u16],
)
    requires { Sized n state.now × (row + 16 ≤ n) × (length line.old ≡ n) × (length cols.old ≡ 8 * n) × (length sums.old ≡ 128) }
    ensures { sums.new ≡ gained wrap n (right_term n (held_of n state.now) (secret_of n state.now)) (words (take 64 (drop (67 + 4 * n + row * 4) state.now))) }
{
    let a = 67 + 4 * n;
    let h = 67 + 8 * n;
    let d = a + row * 4;
    parts::unpair(&state[67..a], cols);
    parts::unpair(&state[d..d + 64], sums);
    parts::add_rows(n, n / 2, 16, &state[h..], cols, line, sums);
}

fn put_right(
    n: usize,
    row: usize,
    line: &mut [u16],
    cols: &mut [u16],
    sums: &mut [u16],
    state: &mut [u32],
)
    requires { Sized n state.old × (row + 16 ≤ n) × (length line.old ≡ n) × (length cols.old ≡ 8 * n) × (length sums.old ≡ 128) }
    ensures { state.new ≡ entered Call.Offer n (row * n) state.old }
{
    sums_right(n, row, state, line, cols, sums);
    let d = 67 + 4 * n + row * 4;
    parts::pair(sums, &mut state[d..d + 64]);
}

// In the smallest set, with as much room as that needs: each block of sixteen rows zeroes these arrays first, and those of the largest set are two and a half times
// as long. The columns have four words of room that nobody needs: with them all three arrays start where 16 bytes do.
fn add_right_small(n: usize, row: usize, state: &mut [u32])
    requires { Sized n state.old × (row + 16 ≤ n) × (n ≤ 352) }
    ensures { state.new ≡ entered Call.Offer n (row * n) state.old }
{
    let mut line = [0u16; 352];
    let mut cols = [0u16; 2820];
    let mut sums = [0u16; 128];
    let k = 8 * n;
    put_right(n, row, &mut line[..n], &mut cols[..k], &mut sums, state);
}

// Sixteen rows into the sums of Offer, in any set.
fn add_right(n: usize, row: usize, state: &mut [u32])
    requires { Sized n state.old × (row + 16 ≤ n) }
    ensures { state.new ≡ entered Call.Offer n (row * n) state.old }
{
    if n <= 352 {
        return add_right_small(n, row, state);
    }
    let mut line = [0u16; 864];
    let mut cols = [0u16; 6916];
    let mut sums = [0u16; 128];
    let k = 8 * n;
    put_right(n, row, &mut line[..n], &mut cols[..k], &mut sums, state);
}

// Reply: all sums, with these rows, four at a time. Of the secret it is sixteen columns that they meet.
fn sums_left(
    n: usize,
    row: usize,
    state: &[u32],
    block: &mut [u16],
    secret: &mut [u16],
    sums: &mut [u16],
)
    requires { Sized n state.now × (row + 16 ≤ n) × (row % 16 ≡ 0) × (length block.old ≡ 4 * n) × (length secret.old ≡ 128) × (length sums.old ≡ 8 * n) }
    ensures { sums.new ≡ gained wrap 16 (part_term n n row (secret_of n state.now) (held_of n state.now)) (sums_of n state.now) }
{
    let a = 67 + 4 * n;
    let h = a + 4 * n;
    parts::some_columns(n / 2, row / 2, 8, &state[67..a], secret);
    parts::unpair(&state[a..h], sums);
    parts::add_left(n, n / 2, 16, secret, &state[h..], block, sums);
}

fn put_left(
    n: usize,
    row: usize,
    block: &mut [u16],
    secret: &mut [u16],
    sums: &mut [u16],
    state: &mut [u32],
)
    requires { Sized n state.old × (row + 16 ≤ n) × (row % 16 ≡ 0) × (length block.old ≡ 4 * n) × (length secret.old ≡ 128) × (length sums.old ≡ 8 * n) }
    ensures { state.new ≡ entered Call.Reply n (row * n) state.old }
{
    sums_left(n, row, state, block, secret, sums);
    let a = 67 + 4 * n;
    let h = a + 4 * n;
    parts::pair(sums, &mut state[a..h]);
}

fn add_left(n: usize, row: usize, state: &mut [u32])
    requires { Sized n state.old × (row + 16 ≤ n) × (row % 16 ≡ 0) }
    ensures { state.new ≡ entered Call.Reply n (row * n) state.old }
{
    let mut block = [0u16; 3456];
    let mut secret = [0u16; 128];
    let mut sums = [0u16; 6916];
    let b = 4 * n;
    let k = 8 * n;
    put_left(n, row, &mut block[..b], &mut secret, &mut sums[..k], state);
}

// The sixteen rows that are held back into the sums. Their words stay where they lie until the next rows take their place.
fn enter(call: Call, n: usize, row: usize, state: &mut [u32])
    requires { Sized n state.old × (row + 16 ≤ n) × (row % 16 ≡ 0) }
    ensures { state.new ≡ entered call n (row * n) state.old }
{
    match call {
        Call::Offer => add_right(n, row, state),
        Call::Reply => add_left(n, row, state),
    }
}

// The part, as words, into the state, and the sixteen rows that it ends into the sums.
fn put_part(call: Call, n: usize, p: &[u32], state: &mut [u32])
    requires { Sized n state.old × (fits_in_lem n (taken state.old) (length p.now) ≡ true) × Below 65536 p.now }
    ensures { state.new ≡ stepped call n state.old p.now }
{
    let at = state[2] as usize;
    let e = at + p.len();
    hold(n, at, p, state);
    if crate::state::fills(n, at, p.len()) {
        enter(call, n, e / n - 16, state);
    }
}

// Its numbers first.
fn take_part(call: Call, q: u32, n: usize, p: &[u32], state: &mut [u32]) -> Result<(), Refusal>
    requires { (0 < q) × (q ≤ 32768) × Sized n state.old × (fits_in_lem n (taken state.old) (length p.now) ≡ true) }
    ensures value { result ≡ publics_in_lem q p.now }
    ensures state_value { state.new ≡ if_passed result (stepped call n state.old p.now) state.old }
{
    refusals::publics_in(q, p)?;
    put_part(call, n, p, state);
    Ok(())
}

fn part_in(call: Call, scheme: Scheme, p: &[u32], state: &mut [u32]) -> Result<(), Refusal>
    requires { family_of scheme ≡ Family.Frodo }
    ensures value { result ≡ part_tests call (Some scheme) state.old p.now }
    ensures state_value { state.new ≡ if_passed result (stepped call (fixed_of scheme).n state.old p.now) state.old }
{
    let f = scheme.fixed();
    refusals::in_turn(crate::state::may_take(call, f, state, p.len()))?;
    take_part(call, f.q, f.n, p, state)
}

pub fn part(call: Call, p: &[u32], state: &mut [u32]) -> Result<(), Refusal>
    ensures { state_seen result state.new ≡ part_result call state.old p.now }
{
    let Some(known) = crate::state::named(state) else {
        return Err(Refusal::OutOfTurn);
    };
    part_in(call, known, p, state)
}
