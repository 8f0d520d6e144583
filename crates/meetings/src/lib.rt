// When two boxes hold the same key, from what their calls promise: two sessions, two boxes of which each goes by whole matrix or by rows, and two boxes that make
// their inputs of random bytes. specs/ states it, proofs/ proves it. The crate has no code of its own.

#![tactic(auto)]
