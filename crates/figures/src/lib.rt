// The figures on the label, of margins and noise: specs/ states them beside 02's words, request n, and proofs/ proves them. The crate has no code of its own.

#![tactic(auto)]
