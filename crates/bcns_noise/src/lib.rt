// BCNS's noise from lent bytes and a lent table: 02, request m. The bytes are secret: every entry of the table is looked at whatever they are, the sign is a
// factor, and no branch and no index depends on them. The table is no secret.
// In the table a number of 192 bits is three words, highest first. To be compared with the bytes it is eight limbs of 24 bits: from the lowest on, a limb
// passes where it is below that of the bytes plus 1, if the limbs below it passed, or plus 0. So a limb takes an addition and a comparison, on as many entries at a
// time as the processor's vectors hold numbers of 32 bits, and the entries' first limbs stand side by side, and so on.
// The caller sees to the lengths; nothing else is asked, and a table that does not ascend is counted too.

#![tactic(auto)]

ghost use Rattle.std.specs.Prelude.{◌≡◌, ℕ, suc, ◌+◌, ◌-◌, ◌*◌, ◌/◌, ◌^◌, ◌<◌, ◌≤◌, leb, ltb, length, get_or, replicate};
ghost use mir.Val.{bool_byte};
ghost use Rattle.lists.specs.Ranges.{Below, Stored};
ghost use Rattle.noise.specs.Noise.{with_sign};
ghost use Rattle.bcns_noise.specs.Noise.{wide, entry_of, big_endian, bcns_value_lem, bcns_noise_lem, falls, first_not_above_lem};
ghost use Rattle.bcns_noise.specs.Limbs.{byte_of, word_bytes, limbs, limbs_of, passes, tally, LimbRows, Compared};

// Entry k of the table: three words, highest first.
fn entry(table: &[u64], k: usize) -> (u64, u64, u64)
    requires { k < length table.now / 3 }
    ensures { result ≡ (get_or table.now (3 * k) 0, get_or table.now (3 * k + 1) 0, get_or table.now (3 * k + 2) 0) }
{
    (table[3 * k], table[3 * k + 1], table[3 * k + 2])
}

// Byte n of the table, where each word is eight bytes, the highest first.
fn byte(table: &[u64], n: usize) -> u32
    requires { n < 8 * length table.now }
    ensures { (result ≡ byte_of table.now n) × (result < 256) × Below (2 ^ 64) table.now }
{
    ((table[n / 8] >> (56 - 8 * (n % 8))) % 256) as u32
}

// A limb of an entry: three bytes from byte n on.
fn limb(table: &[u64], n: usize) -> u32
    requires { n + 3 ≤ 8 * length table.now }
    ensures { (result ≡ big_endian (word_bytes table.now) n 3) × (result < 16777216) × Below (2 ^ 64) table.now }
{
    byte(table, n) * 65536 + byte(table, n + 1) * 256 + byte(table, n + 2)
}

// Limb i of each entry, in row i of t.
fn lay_row(table: &[u64], t: &mut [u32], i: usize)
    requires { (length table.now ≡ 153) × (length t.old ≡ 448) × (i < 8) }
    ensures { Stored 0 t.old (56 * i) 51 (λ (k : ℕ). big_endian (word_bytes table.now) (24 * k + 3 * i) 3) t.new × Below (2 ^ 64) table.now }
{
    for k in 0..51 {
        t[56 * i + k] = limb(table, 24 * k + 3 * i);
    }
}

// The table by limbs: eight rows of 56, of which 51 are entries. What stands behind them is above every number.
fn lay(table: &[u64], t: &mut [u32])
    requires { (length table.now ≡ 153) × (t.old ≡ replicate 448 16777216) }
    ensures { LimbRows table.now 8 t.new }
{
    for i in 0..8 {
        lay_row(table, t, i);
    }
}

// 1 where t < x, else 0. Processors compare several signed numbers at a time, but not several unsigned ones.
fn less(t: u32, x: u32) -> u32
    requires { (t ≤ 16777216) × (x ≤ 16777216) }
    ensures { (result ≡ bool_byte (ltb t x)) × (result ≤ 1) }
{
    ((t as i32) < (x as i32)) as u32
}

// One limb of a comparison, once the limbs below it are compared: where they pass, an equal limb passes too.
fn step(t: &[u32], v: &[u32], k: usize, i: usize, r: u32) -> u32
    requires compared { Compared t.now v.now k × (i < 8) × (r ≤ 1) }
    requires r_value { r ≡ bool_byte (passes (limbs_of t.now k) (limbs v.now) (suc i) (7 - i)) }
    ensures value { result ≡ bool_byte (passes (limbs_of t.now k) (limbs v.now) i (8 - i)) }
    ensures upper_bound { result ≤ 1 }
{
    less(t[56 * i + k], v[i] + r)
}

// Whether entry k is at most the number of the limbs v: 1 or 0.
fn compare(t: &[u32], v: &[u32], k: usize) -> u32
    requires { Compared t.now v.now k }
    ensures value { result ≡ bool_byte (passes (limbs_of t.now k) (limbs v.now) 0 8) }
    ensures upper_bound { result ≤ 1 }
{
    let a = step(t, v, k, 6, step(t, v, k, 7, 1));
    let b = step(t, v, k, 4, step(t, v, k, 5, a));
    let c = step(t, v, k, 2, step(t, v, k, 3, b));
    step(t, v, k, 0, step(t, v, k, 1, c))
}

// How many entries are at most the number of the limbs v.
fn count(t: &[u32], v: &[u32]) -> u32
    requires { Compared t.now v.now 0 }
    ensures { (result ≡ tally 56 (λ (k : ℕ). passes (limbs_of t.now k) (limbs v.now) 0 8)) × (result ≤ 56) }
{
    let mut size: u32 = 0;
    for k in 0..56 {
        size += compare(t, v, k);
    }
    size
}

// Three bytes, the first one highest.
fn three(bytes: &[u8], at: usize) -> u32
    requires { at + 3 ≤ length bytes.now }
    ensures { (result ≡ big_endian bytes.now at 3) × (result < 16777216) }
{
    u32::from_be_bytes([0, bytes[at], bytes[at + 1], bytes[at + 2]])
}

// A size with the sign of the last byte: times 1 or -1.
fn signed(size: u32, last: u8) -> i32
    requires { size < 2 ^ 31 }
    ensures { result ≡ with_sign last size }
{
    (1 - 2 * ((last % 2) as i32)) * (size as i32)
}

// Value k: 25 bytes. The table is there for the contract alone.
fn value(table: &[u64], t: &[u32], bytes: &[u8], k: usize) -> i32
    requires { LimbRows table.now 8 t.now × (length table.now ≡ 153) × (25 * k + 25 ≤ length bytes.now) }
    ensures { result ≡ bcns_value_lem table.now bytes.now k }
{
    let at = 25 * k;
    let v = [
        three(bytes, at),
        three(bytes, at + 3),
        three(bytes, at + 6),
        three(bytes, at + 9),
        three(bytes, at + 12),
        three(bytes, at + 15),
        three(bytes, at + 18),
        three(bytes, at + 21),
    ];
    signed(count(t, &v), bytes[at + 24])
}

fn fill(table: &[u64], t: &[u32], bytes: &[u8], out: &mut [i32])
    requires { LimbRows table.now 8 t.now × (length table.now ≡ 153) × (length bytes.now ≡ 25 * length out.old) }
    ensures { out.new ≡ bcns_noise_lem table.now bytes.now }
{
    for (i, x) in out.iter_mut().enumerate() {
        *x = value(table, t, bytes, i);
    }
}

// All values, by a table of 51 entries.
pub fn values(table: &[u64], bytes: &[u8], out: &mut [i32])
    requires { (length table.now ≡ 153) × (length bytes.now ≡ 25 * length out.old) }
    ensures { out.new ≡ bcns_noise_lem table.now bytes.now }
{
    let mut t = [16777216u32; 448];
    lay(table, &mut t);
    fill(table, &t, bytes, out);
}

// Whether entry k has a forerunner and is not above it.
fn falls_at(table: &[u64], k: usize) -> bool
    requires { k < length table.now / 3 }
    ensures { result ≡ falls table.now k }
{
    k > 0 && entry(table, k) <= entry(table, k - 1)
}

// The place of the first entry that is not above its forerunner, or the number of entries where there is none.
pub fn first_not_above(table: &[u64]) -> usize
    ensures { result ≡ first_not_above_lem table.now }
{
    let n = table.len() / 3;
    for k in 0..n {
        if falls_at(table, k) {
            return k;
        }
    }
    n
}
