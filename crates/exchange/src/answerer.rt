// answer, once the scheme is known and its outputs hold zeros: the rule, lengths and rooms, then the public numbers, in NewHope grown from the seed of the part that
// came, which is tested first, then s', e' and e'' of the random bytes, and Reply. s', e', e'' and grown public numbers stay inside.
ghost use Rattle.std.specs.Prelude.{Some, ◌≡◌, [], length, replicate};
ghost use Rattle.schemes.specs.declared.Scheme.TheVariants as variants;
ghost use Rattle.refusals.specs.Refusals.{◌then◌, pass};
ghost use Rattle.noise.specs.Expand.{rule_of_lem};
ghost use Rattle.sampling.specs.Noise.{table_words};
ghost use Rattle.sampling.specs.Expand.{grow_numbers};
ghost use Rattle.wire.specs.Wire.{seed_in};
ghost use Rattle.reply.specs.Reply.{reply_rooms, reply_rooms_of, reply_told, reply_seen};
ghost use Rattle.exchange.specs.Random.{answer_random, ruled_in, grown};
ghost use Rattle.exchange.specs.Answer.{answer_lent, answer_result};
ghost use Rattle.exchange.specs.Inside.{came_in, AnswerSized, drawn_answers, answer_sizes_lem};

use refusals::Refusal;
use reply::ReplyCounts;
use schemes::{NewHope, Scheme};

// The rule, lengths and rooms.
fn answer_sizes(
    scheme: Scheme,
    rule: u32,
    opening: &[u8],
    a: &[u32],
    table: &[u64],
    random: &[u8],
    room: usize,
    keyroom: usize,
    digestroom: usize,
) -> Result<(), Refusal>
    ensures { result ≡ answer_sizes_lem scheme (rule_of_lem rule) (answer_lent opening.now a.now table.now random.now) (reply_rooms_of room keyroom digestroom) }
{
    let f = scheme.fixed();
    let l = crate::drawing::lengths(scheme);
    crate::drawing::ruled(rule)?;
    refusals::length_is(opening.len(), f.opening)?;
    refusals::length_is(a.len(), l.public)?;
    refusals::length_is(table.len(), l.table)?;
    refusals::length_is(random.len(), l.secret + l.secret + l.mixed + f.coins)?;
    refusals::room_for(room, f.reply)?;
    refusals::room_for(keyroom, f.key)?;
    refusals::room_for(digestroom, 32)
}

// NewHope's public numbers, grown from the opening's seed; the part that came is tested first.
fn grow_opened(rule: u32, opening: &[u8], numbers: &mut [u32]) -> Result<(), Refusal>
    requires { (ruled_in (rule_of_lem rule) ≡ pass) × (length opening.now ≡ 1824) × (length numbers.old ≡ 1024) }
    ensures value { result ≡ came_in variants.NewHope opening.now then grown variants.NewHope (rule_of_lem rule) (seed_in variants.NewHope opening.now) }
    ensures numbers_value { result ≡ pass → numbers.new ≡ grow_numbers (rule_of_lem rule) (seed_in variants.NewHope opening.now) }
{
    let at = NewHope::PACKED;
    wire::take_opening(Scheme::NewHope, opening, numbers)?;
    crate::drawing::grow(rule, &opening[at..], numbers)
}

// s', e' and e'', of which no scheme has more than 6912, 6912 and 1024 values, then Reply by these public numbers.
fn answer_drawn(
    scheme: Scheme,
    opening: &[u8],
    public: &[u32],
    table: &[u64],
    random: &[u8],
    message: &mut [u8],
    key: &mut [u8],
    digest: &mut [u8],
) -> Result<ReplyCounts, Refusal>
    requires random_len { (length random.now ≡ answer_random scheme) × (length table.now ≡ table_words scheme) }
    requires message_value { (message.old ≡ replicate (length message.old) 0) × (key.old ≡ replicate (length key.old) 0) }
    requires digest_value { digest.old ≡ replicate (length digest.old) 0 }
    ensures { reply_seen (reply_told result) message.new key.new digest.new ≡ drawn_answers scheme (answer_lent opening.now public.now table.now random.now) (reply_rooms message.old key.old digest.old) }
{
    let f = scheme.fixed();
    let n = f.noise;
    let m = f.mixed;
    let l = crate::drawing::lengths(scheme);
    let k = l.secret;
    let at = k + k;
    let end = at + l.mixed;
    let mut s1 = [0i32; 6912];
    let mut e1 = [0i32; 6912];
    let mut e2 = [0i32; 1024];
    crate::drawing::draw(scheme, n, k, 0, random, table, &mut s1)?;
    crate::drawing::draw(scheme, n, k, k, random, table, &mut e1)?;
    crate::drawing::draw(scheme, m, l.mixed, at, random, table, &mut e2)?;
    let number = scheme.number();
    reply::reply(
        number,
        opening,
        public,
        &s1[..n],
        &e1[..n],
        &e2[..m],
        &random[end..],
        message,
        key,
        digest,
    )
}

// In NewHope: the public numbers are grown from the opening's seed first, and stay inside.
fn answer_grown(
    rule: u32,
    opening: &[u8],
    table: &[u64],
    random: &[u8],
    message: &mut [u8],
    key: &mut [u8],
    digest: &mut [u8],
) -> Result<ReplyCounts, Refusal>
    requires answer_sized { AnswerSized variants.NewHope (rule_of_lem rule) (answer_lent opening.now [] table.now random.now) (reply_rooms_of (length message.old) (length key.old) (length digest.old)) }
    requires message_value { (message.old ≡ replicate (length message.old) 0) × (key.old ≡ replicate (length key.old) 0) }
    requires digest_value { digest.old ≡ replicate (length digest.old) 0 }
    ensures { reply_seen (reply_told result) message.new key.new digest.new
        ≡ answer_result (Some variants.NewHope) (rule_of_lem rule) (answer_lent opening.now [] table.now random.now) (reply_rooms message.old key.old digest.old) }
{
    let mut numbers = [0u32; NewHope::PUBLIC];
    grow_opened(rule, opening, &mut numbers)?;
    answer_drawn(
        Scheme::NewHope,
        opening,
        &numbers,
        table,
        random,
        message,
        key,
        digest,
    )
}

// By the public numbers that are lent, or grown where none are lent.
fn answer_by(
    scheme: Scheme,
    rule: u32,
    opening: &[u8],
    a: &[u32],
    table: &[u64],
    random: &[u8],
    message: &mut [u8],
    key: &mut [u8],
    digest: &mut [u8],
) -> Result<ReplyCounts, Refusal>
    requires digest_value { answer_sizes_lem scheme (rule_of_lem rule) (answer_lent opening.now a.now table.now random.now) (reply_rooms_of (length message.old) (length key.old) (length digest.old)) ≡ pass }
    requires message_value { (message.old ≡ replicate (length message.old) 0) × (key.old ≡ replicate (length key.old) 0) }
    requires digest_value_2 { digest.old ≡ replicate (length digest.old) 0 }
    ensures { reply_seen (reply_told result) message.new key.new digest.new ≡ answer_result (Some scheme) (rule_of_lem rule) (answer_lent opening.now a.now table.now random.now) (reply_rooms message.old key.old digest.old) }
{
    if a.len() == 0 {
        answer_grown(rule, opening, table, random, message, key, digest)
    } else {
        answer_drawn(scheme, opening, a, table, random, message, key, digest)
    }
}

// In a known scheme.
pub(crate) fn answer_in(
    scheme: Scheme,
    rule: u32,
    opening: &[u8],
    a: &[u32],
    table: &[u64],
    random: &[u8],
    message: &mut [u8],
    key: &mut [u8],
    digest: &mut [u8],
) -> Result<ReplyCounts, Refusal>
    requires message_value { (message.old ≡ replicate (length message.old) 0) × (key.old ≡ replicate (length key.old) 0) }
    requires digest_value { digest.old ≡ replicate (length digest.old) 0 }
    ensures { reply_seen (reply_told result) message.new key.new digest.new ≡ answer_result (Some scheme) (rule_of_lem rule) (answer_lent opening.now a.now table.now random.now) (reply_rooms message.old key.old digest.old) }
{
    answer_sizes(
        scheme,
        rule,
        opening,
        a,
        table,
        random,
        message.len(),
        key.len(),
        digest.len(),
    )?;
    answer_by(
        scheme, rule, opening, a, table, random, message, key, digest,
    )
}
