// A call's answer in numbers, as a program in C takes it: 0 or the refusal's number, and behind pointers its place, the counts of what was written and the slack
// used. Whatever does not apply is 0.

#![tactic(auto)]

ghost use Rattle.std.specs.Prelude.{◌≡◌, ◌≤◌};
ghost use Rattle.refusals.specs.Refusals.{number_in, place_in};
ghost use Rattle.refusals.specs.Seen.{told};
ghost use Rattle.settings.specs.Calls.{read_told};
ghost use Rattle.reply.specs.Reply.{reply_told};
ghost use Rattle.finish.specs.Finish.{finish_told};
ghost use Rattle.bench.specs.Bench.{bench_told, differ_number};
ghost use Rattle.exchange.specs.Open.{open_told};
ghost use Rattle.told.specs.Numbers.{reply_numbers, finish_numbers};

use bench::Compared;
use exchange::OpenCounts;
use finish::FinishCounts;
use refusals::Refusal;
use reply::ReplyCounts;
use settings::{ReadCounts, Unread};

// An answer in numbers.
pub fn tell(answer: Result<usize, Refusal>, place: &mut u64, written: &mut u64) -> u32
    ensures { record { number = result; place = place.new; counts = written.new } ≡ told answer }
{
    match answer {
        Ok(n) => {
            *place = 0;
            *written = n as u64;
            0
        }
        Err(why) => {
            *place = why.place() as u64;
            *written = 0;
            why.number()
        }
    }
}

// A verdict in numbers, of a call that has no count.
pub fn tell_verdict(verdict: Result<(), Refusal>, place: &mut u64) -> u32
    ensures { (result ≡ number_in verdict) × (place.new ≡ place_in verdict) }
{
    match verdict {
        Ok(()) => {
            *place = 0;
            0
        }
        Err(refusal) => {
            *place = refusal.place() as u64;
            refusal.number()
        }
    }
}

// Reply's answer in numbers, with its three counts.
pub fn tell_reply(
    answer: Result<ReplyCounts, Refusal>,
    place: &mut u64,
    written: &mut u64,
    keyed: &mut u64,
    digested: &mut u64,
) -> u32
    ensures { reply_numbers result place.new written.new keyed.new digested.new ≡ reply_told answer }
{
    match answer {
        Ok(n) => {
            *written = n.message as u64;
            *keyed = n.key as u64;
            *digested = n.digest as u64;
            tell_verdict(Ok(()), place)
        }
        Err(why) => {
            *written = 0;
            *keyed = 0;
            *digested = 0;
            tell_verdict(Err(why), place)
        }
    }
}

// The answer of open in numbers, with its two counts.
pub fn tell_open(
    answer: Result<OpenCounts, Refusal>,
    place: &mut u64,
    opened: &mut u64,
    valued: &mut u64,
) -> u32
    ensures { record { number = result; place = place.new; counts = record { opening = opened.new; s = valued.new } } ≡ open_told answer }
{
    match answer {
        Ok(n) => {
            *opened = n.opening as u64;
            *valued = n.s as u64;
            tell_verdict(Ok(()), place)
        }
        Err(why) => {
            *opened = 0;
            *valued = 0;
            tell_verdict(Err(why), place)
        }
    }
}

// Finish's answer in numbers, with its two counts and the slack used.
pub fn tell_finish(
    answer: Result<FinishCounts, Refusal>,
    place: &mut u64,
    keyed: &mut u64,
    digested: &mut u64,
    slack: &mut u64,
    index: &mut u64,
) -> u32
    ensures { finish_numbers result place.new keyed.new digested.new slack.new index.new ≡ finish_told answer }
{
    match answer {
        Ok(n) => {
            let used = n.slack;
            *keyed = n.key as u64;
            *digested = n.digest as u64;
            *slack = used.most as u64;
            *index = used.at as u64;
            tell_verdict(Ok(()), place)
        }
        Err(why) => {
            *keyed = 0;
            *digested = 0;
            *slack = 0;
            *index = 0;
            tell_verdict(Err(why), place)
        }
    }
}

// 0 where the keys agree, else 1 + the first differing bit.
fn differ_number(differ: Option<usize>) -> u64
    requires { differ_number differ ≤ 1024 }
    ensures { result ≡ differ_number differ }
{
    match differ {
        None => 0,
        Some(bit) => (bit + 1) as u64,
    }
}

// Bench's answer in numbers: 0 where the keys agree, else 1 + the first differing bit, of which a key has no more than 1024.
pub fn tell_bench(
    answer: Result<Compared, Refusal>,
    place: &mut u64,
    differ: &mut u64,
    slack: &mut u64,
    index: &mut u64,
) -> u32
    requires { (bench_told answer).differ ≤ 1024 }
    ensures { record { number = result; place = place.new; differ = differ.new; slack = record { most = slack.new; at = index.new } } ≡ bench_told answer }
{
    match answer {
        Ok(n) => {
            let used = n.slack;
            *differ = differ_number(n.differ);
            *slack = used.most as u64;
            *index = used.at as u64;
            tell_verdict(Ok(()), place)
        }
        Err(why) => {
            *differ = 0;
            *slack = 0;
            *index = 0;
            tell_verdict(Err(why), place)
        }
    }
}

// The reader's answer in numbers: the label's count, and the format, the scheme and the rule.
pub fn tell_settings(
    found: Result<ReadCounts, Unread>,
    place: &mut u64,
    labelled: &mut u64,
    format: &mut u64,
    scheme: &mut u64,
    rule: &mut u64,
) -> u32
    ensures { record {
      number = result;
      place = place.new;
      counts = record { label = labelled.new; format = format.new; scheme = scheme.new; rule = rule.new };
    } ≡ read_told found }
{
    match found {
        Ok(n) => {
            *labelled = n.label as u64;
            *format = n.format;
            *scheme = n.scheme as u64;
            *rule = n.rule as u64;
            tell_verdict(Ok(()), place)
        }
        Err(why) => {
            *labelled = 0;
            *format = why.format();
            *scheme = 0;
            *rule = 0;
            tell_verdict(Err(why.refusal()), place)
        }
    }
}
