// The library for programs in C and Rust: each exported function hands on to one call and tells its answer in numbers. It returns 0 or the refusal's number,
// has no `requires`, and promises what the call promises. `include/wimmostry.h` says what a caller has to know.

#![tactic(auto)]

ghost use Rattle.std.specs.Prelude.{◌≡◌, length};
ghost use Rattle.schemes.specs.Schemes.{scheme_of_lem};
ghost use Rattle.refusals.specs.Seen.{seen};
ghost use Rattle.sampling.specs.Noise.{noise, noise_result};
ghost use Rattle.noise.specs.Expand.{rule_of_lem};
ghost use Rattle.sampling.specs.Expand.{expand_result, grow_result};
ghost use Rattle.hashing.specs.Hashing.{shake_result, digest_result};
ghost use Rattle.halves.specs.Halves.{factors, product_seen, product_result};
ghost use Rattle.offer.specs.Offer.{offer, offer_result};
ghost use Rattle.reply.specs.Reply.{reply, reply_rooms, reply_seen, reply_result};
ghost use Rattle.finish.specs.Finish.{finish, finish_rooms, finish_seen, finish_result};
ghost use Rattle.bench.specs.Bench.{bench, bench_result};
ghost use Rattle.settings.specs.Settings.{setup_of};
ghost use Rattle.settings.specs.Calls.{write_result, read_of, read_result, read_seen};
ghost use Rattle.told.specs.Numbers.{reply_numbers, finish_numbers};

mod by_rows;
mod drawn;
mod racks;
mod sessions;

// Offer: the opening message, from the public numbers a, the secret s, the noise e and the seed.
#[unsafe(no_mangle)]
pub extern "C" fn wim_offer(
    scheme: u32,
    a: &[u32],
    s: &[i32],
    e: &[i32],
    seed: &[u8],
    message: &mut [u8],
    place: &mut u64,
    written: &mut u64,
) -> u32
    ensures { seen (record { number = result; place = place.new; counts = written.new }) message.new ≡ offer_result (scheme_of_lem scheme) (offer a.now s.now e.now seed.now) (length message.old) }
{
    told::tell(offer::offer(scheme, a, s, e, seed, message), place, written)
}

// Reply: the reply message, the replier's key and its digest, from the opening message, the public numbers a, the secret s', the noise e' and e'' and the coins.
#[unsafe(no_mangle)]
pub extern "C" fn wim_reply(
    scheme: u32,
    opening: &[u8],
    a: &[u32],
    s1: &[i32],
    e1: &[i32],
    e2: &[i32],
    coins: &[u8],
    message: &mut [u8],
    key: &mut [u8],
    digest: &mut [u8],
    place: &mut u64,
    written: &mut u64,
    keyed: &mut u64,
    digested: &mut u64,
) -> u32
    ensures { reply_seen (reply_numbers result place.new written.new keyed.new digested.new) message.new key.new digest.new
        ≡ reply_result (scheme_of_lem scheme) (reply opening.now a.now s1.now e1.now e2.now coins.now) (reply_rooms message.old key.old digest.old) }
{
    let answer = reply::reply(scheme, opening, a, s1, e1, e2, coins, message, key, digest);
    told::tell_reply(answer, place, written, keyed, digested)
}

// Finish: the initiator's key, its digest and the slack used, from the reply message and the secret s.
#[unsafe(no_mangle)]
pub extern "C" fn wim_finish(
    scheme: u32,
    reply: &[u8],
    s: &[i32],
    key: &mut [u8],
    digest: &mut [u8],
    place: &mut u64,
    keyed: &mut u64,
    digested: &mut u64,
    slack: &mut u64,
    index: &mut u64,
) -> u32
    ensures { finish_seen (finish_numbers result place.new keyed.new digested.new slack.new index.new) key.new digest.new
        ≡ finish_result (scheme_of_lem scheme) (finish reply.now s.now) (finish_rooms key.old digest.old) }
{
    let answer = finish::finish(scheme, reply, s, key, digest);
    told::tell_finish(answer, place, keyed, digested, slack, index)
}

// Bench: both ends on lent secrets; the keys agree, or differ from a bit on; with the slack used.
#[unsafe(no_mangle)]
pub extern "C" fn wim_bench(
    scheme: u32,
    a: &[u32],
    s: &[i32],
    e: &[i32],
    seed: &[u8],
    s1: &[i32],
    e1: &[i32],
    e2: &[i32],
    coins: &[u8],
    place: &mut u64,
    differ: &mut u64,
    slack: &mut u64,
    index: &mut u64,
) -> u32
    ensures { record { number = result; place = place.new; differ = differ.new; slack = record { most = slack.new; at = index.new } }
        ≡ bench_result (scheme_of_lem scheme) (bench a.now s.now e.now seed.now s1.now e1.now e2.now coins.now) }
{
    let answer = bench::bench(scheme, a, s, e, seed, s1, e1, e2, coins);
    told::tell_bench(answer, place, differ, slack, index)
}

// The settings that a text holds, read by a reader of the formats up to its own number.
#[unsafe(no_mangle)]
pub extern "C" fn wim_settings_read(
    reader: u32,
    text: &[u8],
    label: &mut [u8],
    place: &mut u64,
    labelled: &mut u64,
    format: &mut u64,
    scheme: &mut u64,
    rule: &mut u64,
) -> u32
    ensures { read_seen
        (record {
          number = result;
          place = place.new;
          counts = record { label = labelled.new; format = format.new; scheme = scheme.new; rule = rule.new };
        })
        label.new ≡ read_result (read_of reader text.now) (length label.old) }
{
    let found = settings::read_lent(reader, text, label);
    told::tell_settings(found, place, labelled, format, scheme, rule)
}

// The text of settings.
#[unsafe(no_mangle)]
pub extern "C" fn wim_settings_write(
    scheme: u32,
    rule: u32,
    label: &[u8],
    text: &mut [u8],
    place: &mut u64,
    written: &mut u64,
) -> u32
    ensures { seen (record { number = result; place = place.new; counts = written.new }) text.new ≡ write_result (setup_of scheme rule label.now) (length text.old) }
{
    told::tell(settings::write(scheme, rule, label, text), place, written)
}

// Product: the product of two BCNS polynomials, by halves, on lent scratch space, which is zero afterwards.
#[unsafe(no_mangle)]
pub extern "C" fn wim_product(
    a: &[u32],
    b: &[u32],
    out: &mut [u32],
    scratch: &mut [u32],
    place: &mut u64,
    written: &mut u64,
) -> u32
    ensures { product_seen (record { number = result; place = place.new; counts = written.new }) out.new scratch.new ≡ product_result (factors a.now b.now) (length out.old) (length scratch.old) }
{
    told::tell(halves::product(a, b, out, scratch), place, written)
}

// Noise: the values that the bytes give, in BCNS by the table.
#[unsafe(no_mangle)]
pub extern "C" fn wim_noise(
    scheme: u32,
    bytes: &[u8],
    table: &[u64],
    out: &mut [i32],
    place: &mut u64,
    written: &mut u64,
) -> u32
    ensures { seen (record { number = result; place = place.new; counts = written.new }) out.new ≡ noise_result (scheme_of_lem scheme) (noise bytes.now table.now) (length out.old) }
{
    told::tell(sampling::noise(scheme, bytes, table, out), place, written)
}

// SHAKE-128: it fills the output.
#[unsafe(no_mangle)]
pub extern "C" fn wim_shake128(
    input: &[u8],
    out: &mut [u8],
    place: &mut u64,
    written: &mut u64,
) -> u32
    ensures { seen (record { number = result; place = place.new; counts = written.new }) out.new ≡ shake_result input.now (length out.old) }
{
    told::tell(hashing::shake128(input, out), place, written)
}

// SHA3-256: its 32 bytes.
#[unsafe(no_mangle)]
pub extern "C" fn wim_sha3_256(
    input: &[u8],
    out: &mut [u8],
    place: &mut u64,
    written: &mut u64,
) -> u32
    ensures { seen (record { number = result; place = place.new; counts = written.new }) out.new ≡ digest_result input.now (length out.old) }
{
    told::tell(hashing::sha3_256(input, out), place, written)
}

// Expand: the first 1,024 numbers that the rule takes from the stream.
#[unsafe(no_mangle)]
pub extern "C" fn wim_expand(
    rule: u32,
    stream: &[u8],
    out: &mut [u32],
    place: &mut u64,
    written: &mut u64,
) -> u32
    ensures { seen (record { number = result; place = place.new; counts = written.new }) out.new ≡ expand_result (rule_of_lem rule) stream.now (length out.old) }
{
    told::tell(sampling::expand(rule, stream, out), place, written)
}

// Grow: the first 1,024 numbers that the rule takes from the blocks of SHAKE-128 of the seed.
#[unsafe(no_mangle)]
pub extern "C" fn wim_grow(
    rule: u32,
    seed: &[u8],
    out: &mut [u32],
    place: &mut u64,
    written: &mut u64,
) -> u32
    ensures { seen (record { number = result; place = place.new; counts = written.new }) out.new ≡ grow_result (rule_of_lem rule) seed.now (length out.old) }
{
    told::tell(sampling::grow(rule, seed, out), place, written)
}
