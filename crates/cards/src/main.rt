// The bench cards, run: 01, "Bench cards", as amended by request d (docs/RULES.md). A line has a card's inputs and what the library's functions give for them.
// It begins with `*` where 01 marks the card, which is then a theorem on the definitions too (`specs/Table.antt`). `stdout` is what the second program prints.
// A write that fails ends the program with its error.
#![tactic(auto)]

ghost use Rattle.std.specs.Prelude.{◌<◌};
ghost use Rattle.schemes.specs.Schemes.{bcns, new_hope, fixed_of};
ghost use Rattle.schemes.specs.declared.Scheme.TheVariants.{Recommended};
ghost use Rattle.lists.specs.Ranges.{Below};

use newhope::Four;
use refusals::Refusal;
use schemes::FrodoRecommended;
use std::io;

fn text(rt: &impl Print, t: &[u8]) -> io::Result<()> {
    rt.write_all(t)
}

fn number(rt: &impl Print, n: u64) -> io::Result<()> {
    print!(rt; "{n}")
}

fn signed(rt: &impl Print, z: i32) -> io::Result<()> {
    print!(rt; "{z}")
}

// A name and its number.
fn field(rt: &impl Print, name: &[u8], n: u32) -> io::Result<()> {
    text(rt, name)?;
    number(rt, n as u64)
}

// Entry i of a list, behind a comma unless it is the first.
fn entry(rt: &impl Print, i: usize, x: u32) -> io::Result<()> {
    if 0 < i {
        text(rt, b",")?;
    }
    number(rt, x as u64)
}

// A name and its numbers.
fn list(rt: &impl Print, name: &[u8], xs: &[u32; 1024]) -> io::Result<()> {
    text(rt, name)?;
    for (i, x) in xs.iter().enumerate() {
        entry(rt, i, *x)?;
    }
    Ok(())
}

fn four(rt: &impl Print, name: &[u8], x: Four) -> io::Result<()> {
    field(rt, name, x.e0)?;
    field(rt, b",", x.e1)?;
    field(rt, b",", x.e2)?;
    field(rt, b",", x.e3)
}

// A byte in hexadecimal, in upper case.
fn byte(rt: &impl Print, x: u8) -> io::Result<()> {
    print!(rt; "{x:02X}")
}

fn bcns_value(rt: &impl Print, v: u32, coin: u32) -> io::Result<()>
    requires { v < bcns.q }
{
    let z = bcns::double(coin, v);
    field(rt, b"* bcns v=", v)?;
    field(rt, b" coin=", coin)?;
    field(rt, b" : hint=", bcns::hint(z))?;
    field(rt, b" bit=", bcns::key(z))?;
    text(rt, b"\n")
}

fn bcns_peer(rt: &impl Print, w: u32, h: u32) -> io::Result<()>
    requires { (h < 2) × (w < bcns.q) }
{
    field(rt, b"* bcns w=", w)?;
    field(rt, b" hint=", h)?;
    field(rt, b" : bit=", bcns::peer(h, w))?;
    text(rt, b"\n")
}

// Frodo Recommended: the bits of an entry's key, and the interval.
const B: u32 = FrodoRecommended::KEYBITS;

const I: u32 = FrodoRecommended::Q >> B;

fn frodo_value(rt: &impl Print, v: u32) -> io::Result<()>
    requires { v < (fixed_of Recommended).q }
{
    field(rt, b"* frodo scheme=4 v=", v)?;
    field(rt, b" : hint=", frodo::hint(I, B, v))?;
    field(rt, b" key=", frodo::key(I, B, v))?;
    text(rt, b"\n")
}

fn frodo_peer(rt: &impl Print, w: u32, h: u32) -> io::Result<()>
    requires { (h < 2) × (w < (fixed_of Recommended).q) }
{
    field(rt, b"* frodo scheme=4 w=", w)?;
    field(rt, b" hint=", h)?;
    field(rt, b" : key=", frodo::peer(I, B, h, w))?;
    text(rt, b"\n")
}

// Four entries that are all x.
fn newhope_group(rt: &impl Print, x: u32, coin: u32) -> io::Result<()>
    requires { (coin < 2) × (x < new_hope.q) }
{
    let group = Four {
        e0: x,
        e1: x,
        e2: x,
        e3: x,
    };
    let hint = newhope::hint(coin, group);
    four(rt, b"* newhope x=", group)?;
    field(rt, b" coin=", coin)?;
    four(rt, b" : hint=", hint)?;
    field(rt, b" bit=", newhope::bit(hint, group))?;
    text(rt, b"\n")
}

fn newhope_noise(rt: &impl Print, a: u8, b: u8, c: u8, d: u8) -> io::Result<()> {
    let mut out = [0i32; 1];
    noise::newhope(&[a, b, c, d], &mut out);
    text(rt, b"* noise scheme=1 bytes=")?;
    byte(rt, a)?;
    byte(rt, b)?;
    byte(rt, c)?;
    byte(rt, d)?;
    text(rt, b" : value=")?;
    signed(rt, out[0])?;
    text(rt, b"\n")
}

// The word as its two bytes, the lower first.
fn frodo_noise(rt: &impl Print, word: u16) -> io::Result<()> {
    let mut out = [0i32; 1];
    noise::frodo(
        noise::FrodoSet::Recommended,
        &[(word % 256) as u8, (word / 256) as u8],
        &mut out,
    );
    field(rt, b"* noise scheme=4 word=", word as u32)?;
    text(rt, b" : value=")?;
    signed(rt, out[0])?;
    text(rt, b"\n")
}

// X^k.
fn power(k: usize) -> [u32; 1024]
    requires { k < 1024 }
    ensures { Below new_hope.q result }
{
    let mut g = [0u32; 1024];
    g[k] = 1;
    g
}

// Of X^k, which is called by the name.
fn transform_of(rt: &impl Print, name: &[u8], k: usize) -> io::Result<()>
    requires { k < 1024 }
{
    let mut g = power(k);
    transform::forward(&mut g);
    text(rt, b"- transform of=")?;
    text(rt, name)?;
    list(rt, b" : ", &g)?;
    text(rt, b"\n")
}

fn product_card(rt: &impl Print) -> io::Result<()> {
    let mut a = power(1023);
    let mut b = power(1);
    transform::product(&mut a, &mut b);
    list(rt, b"- product of=X^1023,X : ", &a)?;
    text(rt, b"\n")
}

// A refusal with its place.
fn refused(rt: &impl Print, r: Refusal) -> io::Result<()> {
    field(rt, b"refusal=", r.number())?;
    text(rt, b" place=")?;
    number(rt, r.place() as u64)
}

// A call's answer: that it passes, or the refusal.
fn told(rt: &impl Print, answer: Result<usize, Refusal>) -> io::Result<()> {
    match answer {
        Ok(_) => text(rt, b"passes"),
        Err(r) => refused(rt, r),
    }
}

// An opening of NewHope whose first number is n, all else 0.
fn opening(n: u32) -> [u8; 1824]
    requires { n < 16384 }
{
    let mut bytes = [0u8; 1824];
    bytes[0] = (n % 256) as u8;
    bytes[1] = (n / 256) as u8;
    bytes
}

// A reply of NewHope whose first number is n, all else 0.
fn reply(n: u32) -> [u8; 2048]
    requires { n < 16384 }
{
    let mut bytes = [0u8; 2048];
    bytes[0] = (n % 256) as u8;
    bytes[1] = (n / 256) as u8;
    bytes
}

// With some noise, since zeros alone would make a blank part.
fn reply_card(rt: &impl Print, n: u32) -> io::Result<()>
    requires { n < 16384 }
{
    let given = opening(n);
    let a = [0u32; 1024];
    let zeros = [0i32; 1024];
    let noise = [1i32; 1024];
    let coins = [0u8; 32];
    let mut message = [0u8; 2048];
    let mut key = [0u8; 32];
    let mut digest = [0u8; 32];
    let answer = reply::reply(
        1,
        &given,
        &a,
        &zeros,
        &noise,
        &zeros,
        &coins,
        &mut message,
        &mut key,
        &mut digest,
    );
    field(rt, b"- reply scheme=1 index=0 number=", n)?;
    text(rt, b" : ")?;
    match answer {
        Ok(_) => text(rt, b"passes")?,
        Err(r) => refused(rt, r)?,
    }
    text(rt, b"\n")
}

fn finish_card(rt: &impl Print, n: u32) -> io::Result<()>
    requires { n < 16384 }
{
    let given = reply(n);
    let secret = [0i32; 1024];
    let mut key = [0u8; 32];
    let mut digest = [0u8; 32];
    let answer = finish::finish(1, &given, &secret, &mut key, &mut digest);
    field(rt, b"- finish scheme=1 index=0 number=", n)?;
    text(rt, b" : ")?;
    match answer {
        Ok(_) => text(rt, b"passes")?,
        Err(r) => refused(rt, r)?,
    }
    text(rt, b"\n")
}

fn message_cards(rt: &impl Print) -> io::Result<()> {
    reply_card(rt, 12288)?;
    finish_card(rt, 12288)?;
    reply_card(rt, 12289)?;
    finish_card(rt, 12289)
}

// Of the empty stream.
fn expand_card(rt: &impl Print) -> io::Result<()> {
    let stream = [0u8; 0];
    let mut out = [0u32; 1024];
    let answer = sampling::expand(14, &stream, &mut out);
    text(rt, b"- expand stream= : ")?;
    told(rt, answer)?;
    text(rt, b"\n")
}

fn bcns_cards(rt: &impl Print) -> io::Result<()> {
    bcns_value(rt, 1073741824, 2)?;
    bcns_peer(rt, 1610612735, 0)?;
    bcns_peer(rt, 1610612736, 0)?;
    bcns_value(rt, 1073741824, 0)?;
    bcns_value(rt, 0, 2)
}

fn frodo_cards(rt: &impl Print) -> io::Result<()> {
    frodo_value(rt, 1023)?;
    frodo_peer(rt, 1535, 0)?;
    frodo_peer(rt, 1536, 0)?;
    frodo_value(rt, 32767)?;
    frodo_peer(rt, 0, 1)
}

fn newhope_cards(rt: &impl Print) -> io::Result<()> {
    newhope_group(rt, 0, 0)?;
    newhope_group(rt, 0, 1)?;
    newhope_group(rt, 6144, 0)?;
    newhope_group(rt, 1536, 0)
}

fn noise_cards(rt: &impl Print) -> io::Result<()> {
    newhope_noise(rt, 255, 255, 0, 0)?;
    newhope_noise(rt, 1, 0, 3, 0)?;
    frodo_noise(rt, 1205)?;
    frodo_noise(rt, 1206)?;
    frodo_noise(rt, 4095)
}

fn transform_cards(rt: &impl Print) -> io::Result<()> {
    transform_of(rt, b"1", 0)?;
    transform_of(rt, b"X", 1)?;
    product_card(rt)
}

fn main(rt: HostRuntime) -> io::Result<()> {
    bcns_cards(&rt)?;
    frodo_cards(&rt)?;
    newhope_cards(&rt)?;
    noise_cards(&rt)?;
    transform_cards(&rt)?;
    message_cards(&rt)?;
    expand_card(&rt)
}
