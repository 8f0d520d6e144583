// The permutation Keccak-f[1600] of FIPS 202, section 3, on 25 lanes of 64 bits: lane (x, y) stands at x + 5y. The steps are written out lane by lane, so that
// a round has no index to compute and no branch.

#![tactic(auto)]

ghost use Rattle.std.specs.Prelude.{◌≡◌};
ghost use Rattle.keccak.specs.Keccak.{theta, rho, pi, chi, iota, round as rounded, keccak_f};

// theta, rho and pi: c has the parities of the columns, d what theta adds to each, t the lanes before they are turned.
fn mix(a: [u64; 25]) -> [u64; 25]
    ensures { result ≡ pi (rho (theta a)) }
{
    let a0 = a[0];
    let a1 = a[1];
    let a2 = a[2];
    let a3 = a[3];
    let a4 = a[4];
    let a5 = a[5];
    let a6 = a[6];
    let a7 = a[7];
    let a8 = a[8];
    let a9 = a[9];
    let a10 = a[10];
    let a11 = a[11];
    let a12 = a[12];
    let a13 = a[13];
    let a14 = a[14];
    let a15 = a[15];
    let a16 = a[16];
    let a17 = a[17];
    let a18 = a[18];
    let a19 = a[19];
    let a20 = a[20];
    let a21 = a[21];
    let a22 = a[22];
    let a23 = a[23];
    let a24 = a[24];
    let c0 = a0 ^ a5 ^ a10 ^ a15 ^ a20;
    let c1 = a1 ^ a6 ^ a11 ^ a16 ^ a21;
    let c2 = a2 ^ a7 ^ a12 ^ a17 ^ a22;
    let c3 = a3 ^ a8 ^ a13 ^ a18 ^ a23;
    let c4 = a4 ^ a9 ^ a14 ^ a19 ^ a24;
    let d0 = c4 ^ ((c1 << 1) | (c1 >> 63));
    let d1 = c0 ^ ((c2 << 1) | (c2 >> 63));
    let d2 = c1 ^ ((c3 << 1) | (c3 >> 63));
    let d3 = c2 ^ ((c4 << 1) | (c4 >> 63));
    let d4 = c3 ^ ((c0 << 1) | (c0 >> 63));
    let b0 = a0 ^ d0;
    let t1 = a6 ^ d1;
    let b1 = (t1 << 44) | (t1 >> 20);
    let t2 = a12 ^ d2;
    let b2 = (t2 << 43) | (t2 >> 21);
    let t3 = a18 ^ d3;
    let b3 = (t3 << 21) | (t3 >> 43);
    let t4 = a24 ^ d4;
    let b4 = (t4 << 14) | (t4 >> 50);
    let t5 = a3 ^ d3;
    let b5 = (t5 << 28) | (t5 >> 36);
    let t6 = a9 ^ d4;
    let b6 = (t6 << 20) | (t6 >> 44);
    let t7 = a10 ^ d0;
    let b7 = (t7 << 3) | (t7 >> 61);
    let t8 = a16 ^ d1;
    let b8 = (t8 << 45) | (t8 >> 19);
    let t9 = a22 ^ d2;
    let b9 = (t9 << 61) | (t9 >> 3);
    let t10 = a1 ^ d1;
    let b10 = (t10 << 1) | (t10 >> 63);
    let t11 = a7 ^ d2;
    let b11 = (t11 << 6) | (t11 >> 58);
    let t12 = a13 ^ d3;
    let b12 = (t12 << 25) | (t12 >> 39);
    let t13 = a19 ^ d4;
    let b13 = (t13 << 8) | (t13 >> 56);
    let t14 = a20 ^ d0;
    let b14 = (t14 << 18) | (t14 >> 46);
    let t15 = a4 ^ d4;
    let b15 = (t15 << 27) | (t15 >> 37);
    let t16 = a5 ^ d0;
    let b16 = (t16 << 36) | (t16 >> 28);
    let t17 = a11 ^ d1;
    let b17 = (t17 << 10) | (t17 >> 54);
    let t18 = a17 ^ d2;
    let b18 = (t18 << 15) | (t18 >> 49);
    let t19 = a23 ^ d3;
    let b19 = (t19 << 56) | (t19 >> 8);
    let t20 = a2 ^ d2;
    let b20 = (t20 << 62) | (t20 >> 2);
    let t21 = a8 ^ d3;
    let b21 = (t21 << 55) | (t21 >> 9);
    let t22 = a14 ^ d4;
    let b22 = (t22 << 39) | (t22 >> 25);
    let t23 = a15 ^ d0;
    let b23 = (t23 << 41) | (t23 >> 23);
    let t24 = a21 ^ d1;
    let b24 = (t24 << 2) | (t24 >> 62);
    [
        b0, b1, b2, b3, b4, b5, b6, b7, b8, b9, b10, b11, b12, b13, b14, b15, b16, b17, b18, b19,
        b20, b21, b22, b23, b24,
    ]
}

// chi and iota.
fn chi_iota(b: [u64; 25], rc: u64) -> [u64; 25]
    ensures { result ≡ iota rc (chi b) }
{
    let b0 = b[0];
    let b1 = b[1];
    let b2 = b[2];
    let b3 = b[3];
    let b4 = b[4];
    let b5 = b[5];
    let b6 = b[6];
    let b7 = b[7];
    let b8 = b[8];
    let b9 = b[9];
    let b10 = b[10];
    let b11 = b[11];
    let b12 = b[12];
    let b13 = b[13];
    let b14 = b[14];
    let b15 = b[15];
    let b16 = b[16];
    let b17 = b[17];
    let b18 = b[18];
    let b19 = b[19];
    let b20 = b[20];
    let b21 = b[21];
    let b22 = b[22];
    let b23 = b[23];
    let b24 = b[24];
    [
        (b0 ^ (!b1 & b2)) ^ rc,
        b1 ^ (!b2 & b3),
        b2 ^ (!b3 & b4),
        b3 ^ (!b4 & b0),
        b4 ^ (!b0 & b1),
        b5 ^ (!b6 & b7),
        b6 ^ (!b7 & b8),
        b7 ^ (!b8 & b9),
        b8 ^ (!b9 & b5),
        b9 ^ (!b5 & b6),
        b10 ^ (!b11 & b12),
        b11 ^ (!b12 & b13),
        b12 ^ (!b13 & b14),
        b13 ^ (!b14 & b10),
        b14 ^ (!b10 & b11),
        b15 ^ (!b16 & b17),
        b16 ^ (!b17 & b18),
        b17 ^ (!b18 & b19),
        b18 ^ (!b19 & b15),
        b19 ^ (!b15 & b16),
        b20 ^ (!b21 & b22),
        b21 ^ (!b22 & b23),
        b22 ^ (!b23 & b24),
        b23 ^ (!b24 & b20),
        b24 ^ (!b20 & b21),
    ]
}

fn round(a: [u64; 25], rc: u64) -> [u64; 25]
    ensures { result ≡ rounded rc a }
{
    let b = mix(a);
    chi_iota(b, rc)
}

// The round constants of 3.2.5.
const CONSTANTS: [u64; 24] = [
    0x0000000000000001,
    0x0000000000008082,
    0x800000000000808a,
    0x8000000080008000,
    0x000000000000808b,
    0x0000000080000001,
    0x8000000080008081,
    0x8000000000008009,
    0x000000000000008a,
    0x0000000000000088,
    0x0000000080008009,
    0x000000008000000a,
    0x000000008000808b,
    0x800000000000008b,
    0x8000000000008089,
    0x8000000000008003,
    0x8000000000008002,
    0x8000000000000080,
    0x000000000000800a,
    0x800000008000000a,
    0x8000000080008081,
    0x8000000000008080,
    0x0000000080000001,
    0x8000000080008008,
];

pub fn permute(a: [u64; 25]) -> [u64; 25]
    ensures { result ≡ keccak_f a }
{
    let mut s = a;
    for rc in &CONSTANTS {
        // Not `s = round(..)`: the checker does not yet lay a call's result in an array that is there.
        let t = round(s, *rc);
        s = t;
    }
    s
}
