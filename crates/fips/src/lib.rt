// That the definitions of `keccak` and `sponge`, which speak of lanes and bytes, are those of FIPS 202 on bits: specs/ states it, proofs/ proves it. The crate
// has no code of its own.

#![tactic(auto)]
