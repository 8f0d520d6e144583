// open, once the scheme is known and its outputs hold zeros: the rule, lengths and rooms, then the public numbers, grown in NewHope, then s and e of the random
// bytes, and Offer. e and grown public numbers stay inside. A refusal behind the lengths zeroes s again.
ghost use Rattle.std.specs.Prelude.{Some, ◌≡◌, [], ◌++◌, ◌≤◌, length, replicate, drop, pos};
ghost use Rattle.schemes.specs.Schemes.{fixed_of};
ghost use Rattle.schemes.specs.declared.Scheme.TheVariants as variants;
ghost use Rattle.refusals.specs.Seen.{told, seen};
ghost use Rattle.refusals.specs.Refusals.{pass};
ghost use Rattle.noise.specs.Expand.{rule_of_lem};
ghost use Rattle.sampling.specs.Noise.{table_words};
ghost use Rattle.exchange.specs.Random.{open_random, table_order};
ghost use Rattle.exchange.specs.Open.{open_lent, open_rooms, open_rooms_of, open_told, open_seen, drawn_offer, open_result};
ghost use Rattle.exchange.specs.Inside.{OpenSized, drawn_opens, open_shows, OpenHolds, open_sizes_lem};

use crate::OpenCounts;
use refusals::Refusal;
use schemes::{NewHope, Scheme};

// The rule, lengths and rooms.
fn open_sizes(
    scheme: Scheme,
    rule: u32,
    a: &[u32],
    table: &[u64],
    random: &[u8],
    room: usize,
    sroom: usize,
) -> Result<(), Refusal>
    ensures { result ≡ open_sizes_lem scheme (rule_of_lem rule) (open_lent a.now table.now random.now) (open_rooms_of room sroom) }
{
    let f = scheme.fixed();
    let l = crate::drawing::lengths(scheme);
    crate::drawing::ruled(rule)?;
    refusals::length_is(a.len(), l.public)?;
    refusals::length_is(table.len(), l.table)?;
    refusals::length_is(random.len(), f.seed + l.secret + l.secret)?;
    refusals::room_for(room, f.opening)?;
    refusals::room_for(sroom, f.secret)
}

// s and e, then Offer by these public numbers. Where the table is in order s holds its values.
fn open_drawn(
    scheme: Scheme,
    public: &[u32],
    table: &[u64],
    random: &[u8],
    opening: &mut [u8],
    s: &mut [i32],
) -> Result<usize, Refusal>
    requires random_len { (length random.now ≡ open_random scheme) × (length table.now ≡ table_words scheme) × ((fixed_of scheme).secret ≤ length s.old) }
    requires opening_value { opening.old ≡ replicate (length opening.old) 0 }
    ensures opening_value_2 { seen (told result) opening.new ≡ drawn_opens scheme (open_lent public.now table.now random.now) (length opening.old) }
    ensures s_value { table_order scheme table.now ≡ pass
        → s.new ≡ (drawn_offer scheme public.now (open_lent public.now table.now random.now)).s ++ drop (fixed_of scheme).secret s.old }
{
    let f = scheme.fixed();
    let n = f.secret;
    let at = f.seed;
    let l = crate::drawing::lengths(scheme);
    let k = l.secret;
    let mut e = [0i32; 6912];
    crate::drawing::draw(scheme, n, k, at, random, table, s)?;
    crate::drawing::draw(scheme, n, k, at + k, random, table, &mut e)?;
    let number = scheme.number();
    let secret = &s[..n];
    let noise = &e[..n];
    offer::offer(number, public, secret, noise, &random[..at], opening)
}

// In NewHope: the public numbers are grown from the seed first, and stay inside.
fn open_grown(
    rule: u32,
    table: &[u64],
    random: &[u8],
    opening: &mut [u8],
    s: &mut [i32],
) -> Result<usize, Refusal>
    requires open_sized { OpenSized variants.NewHope (rule_of_lem rule) (open_lent [] table.now random.now) (open_rooms_of (length opening.old) (length s.old)) }
    requires opening_value { opening.old ≡ replicate (length opening.old) 0 }
    ensures opening_value_2 { seen (told result) opening.new ≡ open_shows variants.NewHope (rule_of_lem rule) (open_lent [] table.now random.now) (open_rooms opening.old s.old) }
    ensures open_holds { OpenHolds variants.NewHope (rule_of_lem rule) (open_lent [] table.now random.now) (open_rooms opening.old s.old) s.old s.new }
{
    let at = NewHope::SEED;
    let mut numbers = [0u32; NewHope::PUBLIC];
    crate::drawing::grow(rule, &random[..at], &mut numbers)?;
    open_drawn(Scheme::NewHope, &numbers, table, random, opening, s)
}

// By the public numbers that are lent, or grown where none are lent.
fn open_by(
    scheme: Scheme,
    rule: u32,
    a: &[u32],
    table: &[u64],
    random: &[u8],
    opening: &mut [u8],
    s: &mut [i32],
) -> Result<usize, Refusal>
    requires open_sized { OpenSized scheme (rule_of_lem rule) (open_lent a.now table.now random.now) (open_rooms_of (length opening.old) (length s.old)) }
    requires opening_value { opening.old ≡ replicate (length opening.old) 0 }
    ensures opening_value_2 { seen (told result) opening.new ≡ open_shows scheme (rule_of_lem rule) (open_lent a.now table.now random.now) (open_rooms opening.old s.old) }
    ensures open_holds { OpenHolds scheme (rule_of_lem rule) (open_lent a.now table.now random.now) (open_rooms opening.old s.old) s.old s.new }
{
    if a.len() == 0 {
        open_grown(rule, table, random, opening, s)
    } else {
        open_drawn(scheme, a, table, random, opening, s)
    }
}

// Where lengths and rooms have passed. A refusal zeroes s again.
fn open_sized(
    scheme: Scheme,
    rule: u32,
    a: &[u32],
    table: &[u64],
    random: &[u8],
    opening: &mut [u8],
    s: &mut [i32],
) -> Result<OpenCounts, Refusal>
    requires s_value { open_sizes_lem scheme (rule_of_lem rule) (open_lent a.now table.now random.now) (open_rooms_of (length opening.old) (length s.old)) ≡ pass }
    requires opening_value { (opening.old ≡ replicate (length opening.old) 0) × (s.old ≡ replicate (length s.old) (pos 0)) }
    ensures { open_seen (open_told result) opening.new s.new ≡ open_result (Some scheme) (rule_of_lem rule) (open_lent a.now table.now random.now) (open_rooms opening.old s.old) }
{
    let v = open_by(scheme, rule, a, table, random, opening, s);
    match v {
        Err(r) => {
            s.fill(0);
            Err(r)
        }
        Ok(m) => {
            let f = scheme.fixed();
            let n = f.secret;
            Ok(OpenCounts { opening: m, s: n })
        }
    }
}

// In a known scheme.
pub(crate) fn open_in(
    scheme: Scheme,
    rule: u32,
    a: &[u32],
    table: &[u64],
    random: &[u8],
    opening: &mut [u8],
    s: &mut [i32],
) -> Result<OpenCounts, Refusal>
    requires { (opening.old ≡ replicate (length opening.old) 0) × (s.old ≡ replicate (length s.old) (pos 0)) }
    ensures { open_seen (open_told result) opening.new s.new ≡ open_result (Some scheme) (rule_of_lem rule) (open_lent a.now table.now random.now) (open_rooms opening.old s.old) }
{
    open_sizes(scheme, rule, a, table, random, opening.len(), s.len())?;
    open_sized(scheme, rule, a, table, random, opening, s)
}
