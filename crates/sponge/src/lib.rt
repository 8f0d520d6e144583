// SHAKE-128 and SHA3-256 by FIPS 202, on bytes and for a message of any length: padding, absorbing and squeezing (sections 4 to 6) around the permutation of
// crate `keccak`. A function that writes fills the whole of the slice it is lent, but for `lay_digest`.

#![tactic(auto)]

ghost use Rattle.std.specs.Prelude.{◌≡◌, ◌++◌, ◌+◌, ◌-◌, ◌*◌, ◌/◌, ◌%◌, ◌^◌, ◌<◌, ◌≤◌, length, drop};
ghost use Rattle.lists.specs.Entries.{tab};
ghost use Rattle.packing.specs.Packing.{value};
ghost use Rattle.keccak.specs.Keccak.{keccak_f};
ghost use Rattle.sponge.specs.Sponge.{byte_at, over, ending, absorbed, squeezed, shake128 as shaken, sha3};
ghost use Rattle.sponge.specs.Fit.{WholeLanes, Rate};

// The lane that eight bytes make.
fn load(b: &[u8]) -> u64
    requires { length b.now ≡ 8 }
    ensures { result ≡ value 256 b.now }
{
    u64::from_le_bytes([b[0], b[1], b[2], b[3], b[4], b[5], b[6], b[7]])
}

// The state with a block laid over its first lanes.
fn xor_block(s: [u64; 25], b: &[u8]) -> [u64; 25]
    requires { WholeLanes (length b.now) }
    ensures { result ≡ over s b.now }
{
    let mut t = s;
    for i in 0..b.len() / 8 {
        let at = 8 * i;
        t[i] ^= load(&b[at..at + 8]);
    }
    t
}

// The last block: what is left of the message, and its ending.
fn pad(rest: &[u8], suffix: u8, block: &mut [u8])
    requires { (length rest.now < length block.old) × (suffix < 128) }
    ensures { block.new ≡ rest.now ++ ending (length block.old - length rest.now) suffix }
{
    let n = rest.len();
    let room = block.len();
    block.fill(0);
    block[..n].copy_from_slice(rest);
    if n + 1 == room {
        block[n] = suffix + 128;
        return;
    }
    block[n] = suffix;
    block[room - 1] = 128;
}

fn absorb_last(s: [u64; 25], rest: &[u8], suffix: u8, block: &mut [u8]) -> [u64; 25]
    requires { (length rest.now < length block.old) × (suffix < 128) × WholeLanes (length block.old) }
    ensures { result ≡ keccak_f (over s (rest.now ++ ending (length block.old - length rest.now) suffix)) }
{
    pad(rest, suffix, block);
    let x = xor_block(s, block);
    keccak::permute(x)
}

// The local array stands here alone, since each of its bytes would stand in every goal.
fn absorb_rest(s: [u64; 25], rest: &[u8], rate: usize, suffix: u8) -> [u64; 25]
    requires { (length rest.now < rate) × (suffix < 128) × Rate rate }
    ensures { result ≡ keccak_f (over s (rest.now ++ ending (rate - length rest.now) suffix)) }
{
    let mut block = [0u8; 168];
    absorb_last(s, rest, suffix, &mut block[..rate])
}

// The state after the padded message.
fn absorb(input: &[u8], rate: usize, suffix: u8) -> [u64; 25]
    requires { Rate rate × (suffix < 128) }
    ensures { result ≡ absorbed rate suffix input.now }
{
    let blocks = input.len() / rate;
    let mut s = [0u64; 25];
    for j in 0..blocks {
        let at = j * rate;
        let x = xor_block(s, &input[at..at + rate]);
        let y = keccak::permute(x);
        s = y;
    }
    absorb_rest(s, &input[blocks * rate..], rate, suffix)
}

// The first bytes of a state: whole lanes, then what is left.
fn put(s: [u64; 25], out: &mut [u8])
    requires { length out.old ≤ 200 }
    ensures { out.new ≡ tab (length out.old) (byte_at s) }
{
    let n = out.len();
    let lanes = n / 8;
    for i in 0..lanes {
        let at = i * 8;
        out[at..at + 8].copy_from_slice(&s[i].to_le_bytes());
    }
    for k in lanes * 8..n {
        out[k] = ((s[k / 8] >> (8 * (k % 8))) % 256) as u8;
    }
}

// No permutation follows the last block.
fn squeeze(s: [u64; 25], rate: usize, out: &mut [u8])
    requires { Rate rate }
    ensures { out.new ≡ squeezed rate s (length out.old) }
{
    // All blocks but the last, which may be whole.
    let blocks = out.len().saturating_sub(1) / rate;
    let mut t = s;
    for j in 0..blocks {
        let at = j * rate;
        put(t, &mut out[at..at + rate]);
        let u = keccak::permute(t);
        t = u;
    }
    put(t, &mut out[blocks * rate..]);
}

pub fn shake128(input: &[u8], out: &mut [u8])
    ensures { out.new ≡ shaken input.now (length out.old) }
{
    let s = absorb(input, 168, 31);
    squeeze(s, 168, out);
}

pub fn sha3_256(input: &[u8], out: &mut [u8])
    requires { length out.old ≡ 32 }
    ensures { out.new ≡ sha3 input.now }
{
    let s = absorb(input, 136, 6);
    squeeze(s, 136, out);
}

// The digest of a key, at the front of its output; what lies behind it stays.
pub fn lay_digest(key: &[u8], digest: &mut [u8])
    requires { 32 ≤ length digest.old }
    ensures { digest.new ≡ sha3 key.now ++ drop 32 digest.old }
{
    sha3_256(key, &mut digest[..32]);
}
