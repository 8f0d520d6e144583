// The six schemes by name, each with its fixed numbers, written once: 01, "The three families and their numbers", "The calls"
// and "Bytes on the wire". The definitions (`specs/Schemes.antt`) have these numbers as a record for each scheme, and the proofs tie
// code and definitions: a number that is changed on one side alone fails the check.

#![tactic(auto)]

ghost use Rattle.std.specs.Prelude.{◌≡◌, ◌≤◌};
ghost use Rattle.schemes.specs.Schemes.{bcns, new_hope, frodo, fixed_of, family_of, scheme_number, Names};
ghost use Rattle.schemes.specs.declared.Scheme.TheVariants.{Challenge, Classical, Recommended, Paranoid};

// What is fixed in a scheme. Lengths of bytes and counts of numbers are usize, widths in bits and bounds u32.
#[derive(Clone, Copy)]
pub struct Fixed {
    // the size n, the modulus q, the largest noise
    pub n: usize,
    pub q: u32,
    pub largest: u32,
    // counts: the lent public numbers; s or s'; e or e'; e'', which is also that of the mixed values v and w; groups that give key bits
    pub public: usize,
    pub secret: usize,
    pub noise: usize,
    pub mixed: usize,
    pub groups: usize,
    // bits: of a packed number, of the hint of an entry, of a group's key (B in Frodo), of a group's coin
    pub width: u32,
    pub hintbits: u32,
    pub keybits: u32,
    pub coinbits: u32,
    // bytes: the parts of the messages and the whole ones, the coins and the key
    pub packed: usize,
    pub seed: usize,
    pub hint: usize,
    pub opening: usize,
    pub reply: usize,
    pub coins: usize,
    pub key: usize,
}

#[derive(Clone, Copy)]
pub struct Bcns;

impl Bcns {
    pub const N: usize = 1024;

    pub const Q: u32 = 4294967295;

    pub const LARGEST: u32 = 51;

    pub const PUBLIC: usize = Bcns::N;

    pub const SECRET: usize = Bcns::N;

    pub const NOISE: usize = Bcns::N;

    pub const MIXED: usize = Bcns::N;

    pub const GROUPS: usize = Bcns::N;

    pub const WIDTH: u32 = 32;

    pub const HINTBITS: u32 = 1;

    pub const KEYBITS: u32 = 1;

    pub const COINBITS: u32 = 2;

    pub const PACKED: usize = 4096;

    pub const SEED: usize = 0;

    pub const HINT: usize = 128;

    pub const OPENING: usize = Bcns::PACKED + Bcns::SEED;

    pub const REPLY: usize = Bcns::PACKED + Bcns::HINT;

    pub const COINS: usize = 256;

    pub const KEY: usize = 128;

    pub fn fixed() -> Fixed
        ensures { result ≡ bcns }
    {
        Fixed {
            n: Bcns::N,
            q: Bcns::Q,
            largest: Bcns::LARGEST,
            public: Bcns::PUBLIC,
            secret: Bcns::SECRET,
            noise: Bcns::NOISE,
            mixed: Bcns::MIXED,
            groups: Bcns::GROUPS,
            width: Bcns::WIDTH,
            hintbits: Bcns::HINTBITS,
            keybits: Bcns::KEYBITS,
            coinbits: Bcns::COINBITS,
            packed: Bcns::PACKED,
            seed: Bcns::SEED,
            hint: Bcns::HINT,
            opening: Bcns::OPENING,
            reply: Bcns::REPLY,
            coins: Bcns::COINS,
            key: Bcns::KEY,
        }
    }
}

#[derive(Clone, Copy)]
pub struct NewHope;

impl NewHope {
    pub const N: usize = 1024;

    pub const Q: u32 = 12289;

    pub const LARGEST: u32 = 16;

    pub const PUBLIC: usize = NewHope::N;

    pub const SECRET: usize = NewHope::N;

    pub const NOISE: usize = NewHope::N;

    pub const MIXED: usize = NewHope::N;

    pub const GROUPS: usize = NewHope::N / 4;

    pub const WIDTH: u32 = 14;

    pub const HINTBITS: u32 = 2;

    pub const KEYBITS: u32 = 1;

    pub const COINBITS: u32 = 1;

    pub const PACKED: usize = 1792;

    pub const SEED: usize = 32;

    pub const HINT: usize = 256;

    pub const OPENING: usize = NewHope::PACKED + NewHope::SEED;

    pub const REPLY: usize = NewHope::PACKED + NewHope::HINT;

    pub const COINS: usize = 32;

    pub const KEY: usize = 32;

    pub fn fixed() -> Fixed
        ensures { result ≡ new_hope }
    {
        Fixed {
            n: NewHope::N,
            q: NewHope::Q,
            largest: NewHope::LARGEST,
            public: NewHope::PUBLIC,
            secret: NewHope::SECRET,
            noise: NewHope::NOISE,
            mixed: NewHope::MIXED,
            groups: NewHope::GROUPS,
            width: NewHope::WIDTH,
            hintbits: NewHope::HINTBITS,
            keybits: NewHope::KEYBITS,
            coinbits: NewHope::COINBITS,
            packed: NewHope::PACKED,
            seed: NewHope::SEED,
            hint: NewHope::HINT,
            opening: NewHope::OPENING,
            reply: NewHope::REPLY,
            coins: NewHope::COINS,
            key: NewHope::KEY,
        }
    }
}

// What is fixed in Frodo, over what its four sets differ in: n, q, the largest noise, the bits of a packed number and of an entry's key, and the key bytes.
fn frodo(n: usize, q: u32, largest: u32, width: u32, keybits: u32, key: usize) -> Fixed
    requires { (n ≤ 864) × (width ≤ 15) }
    ensures { result ≡ frodo n q largest width keybits key }
{
    let packed = n * (width as usize);
    Fixed {
        n: n,
        q: q,
        largest: largest,
        public: n * n,
        secret: 8 * n,
        noise: 8 * n,
        mixed: 64,
        groups: 64,
        width: width,
        hintbits: 1,
        keybits: keybits,
        coinbits: 0,
        packed: packed,
        seed: 16,
        hint: 8,
        opening: 16 + packed,
        reply: packed + 8,
        coins: 0,
        key: key,
    }
}

#[derive(Clone, Copy)]
pub struct FrodoChallenge;

impl FrodoChallenge {
    pub const N: usize = 352;

    pub const Q: u32 = 2048;

    pub const LARGEST: u32 = 3;

    pub const WIDTH: u32 = 11;

    pub const KEYBITS: u32 = 1;

    pub const KEY: usize = 8;

    pub fn fixed() -> Fixed
        ensures { result ≡ fixed_of Challenge }
    {
        frodo(
            FrodoChallenge::N,
            FrodoChallenge::Q,
            FrodoChallenge::LARGEST,
            FrodoChallenge::WIDTH,
            FrodoChallenge::KEYBITS,
            FrodoChallenge::KEY,
        )
    }
}

#[derive(Clone, Copy)]
pub struct FrodoClassical;

impl FrodoClassical {
    pub const N: usize = 592;

    pub const Q: u32 = 4096;

    pub const LARGEST: u32 = 4;

    pub const WIDTH: u32 = 12;

    pub const KEYBITS: u32 = 2;

    pub const KEY: usize = 16;

    pub fn fixed() -> Fixed
        ensures { result ≡ fixed_of Classical }
    {
        frodo(
            FrodoClassical::N,
            FrodoClassical::Q,
            FrodoClassical::LARGEST,
            FrodoClassical::WIDTH,
            FrodoClassical::KEYBITS,
            FrodoClassical::KEY,
        )
    }
}

#[derive(Clone, Copy)]
pub struct FrodoRecommended;

impl FrodoRecommended {
    pub const N: usize = 752;

    pub const Q: u32 = 32768;

    pub const LARGEST: u32 = 5;

    pub const WIDTH: u32 = 15;

    pub const KEYBITS: u32 = 4;

    pub const KEY: usize = 32;

    pub fn fixed() -> Fixed
        ensures { result ≡ fixed_of Recommended }
    {
        frodo(
            FrodoRecommended::N,
            FrodoRecommended::Q,
            FrodoRecommended::LARGEST,
            FrodoRecommended::WIDTH,
            FrodoRecommended::KEYBITS,
            FrodoRecommended::KEY,
        )
    }
}

#[derive(Clone, Copy)]
pub struct FrodoParanoid;

impl FrodoParanoid {
    pub const N: usize = 864;

    pub const Q: u32 = 32768;

    pub const LARGEST: u32 = 6;

    pub const WIDTH: u32 = 15;

    pub const KEYBITS: u32 = 4;

    pub const KEY: usize = 32;

    // The longest messages of all schemes.
    pub const OPENING: usize = 16 + 15 * FrodoParanoid::N;

    pub const REPLY: usize = 15 * FrodoParanoid::N + 8;

    pub fn fixed() -> Fixed
        ensures { result ≡ fixed_of Paranoid }
    {
        frodo(
            FrodoParanoid::N,
            FrodoParanoid::Q,
            FrodoParanoid::LARGEST,
            FrodoParanoid::WIDTH,
            FrodoParanoid::KEYBITS,
            FrodoParanoid::KEY,
        )
    }
}

// The longest messages of all schemes.
pub const LONGEST_OPENING: usize = FrodoParanoid::OPENING;

pub const LONGEST_REPLY: usize = FrodoParanoid::REPLY;

// The three families: in schemes 0 and 1 products are of polynomials, NewHope's through the transform; in Frodo they are of matrices.
#[derive(Clone, Copy, Debug, PartialEq, Eq)]
pub enum Family {
    Bcns,
    NewHope,
    Frodo,
}

#[derive(Clone, Copy, Debug, PartialEq, Eq)]
pub enum Scheme {
    Bcns,
    NewHope,
    Challenge,
    Classical,
    Recommended,
    Paranoid,
}

impl Scheme {
    pub fn fixed(self) -> Fixed
        ensures { result ≡ fixed_of self }
    {
        match self {
            Scheme::Bcns => Bcns::fixed(),
            Scheme::NewHope => NewHope::fixed(),
            Scheme::Challenge => FrodoChallenge::fixed(),
            Scheme::Classical => FrodoClassical::fixed(),
            Scheme::Recommended => FrodoRecommended::fixed(),
            Scheme::Paranoid => FrodoParanoid::fixed(),
        }
    }

    pub fn family(self) -> Family
        ensures { result ≡ family_of self }
    {
        match self {
            Scheme::Bcns => Family::Bcns,
            Scheme::NewHope => Family::NewHope,
            Scheme::Challenge => Family::Frodo,
            Scheme::Classical => Family::Frodo,
            Scheme::Recommended => Family::Frodo,
            Scheme::Paranoid => Family::Frodo,
        }
    }

    pub fn number(self) -> u32
        ensures { result ≡ scheme_number self }
    {
        self as u32
    }
}

// A number that names no scheme.
#[derive(Clone, Copy, Debug, PartialEq, Eq)]
pub struct UnknownScheme;

impl TryFrom<u32> for Scheme {
    type Error = UnknownScheme;

    ghost try_from_gives = { Names };

    fn try_from(number: u32) -> Result<Scheme, UnknownScheme> {
        match number {
            0 => Ok(Scheme::Bcns),
            1 => Ok(Scheme::NewHope),
            2 => Ok(Scheme::Challenge),
            3 => Ok(Scheme::Classical),
            4 => Ok(Scheme::Recommended),
            5 => Ok(Scheme::Paranoid),
            _ => Err(UnknownScheme),
        }
    }
}
