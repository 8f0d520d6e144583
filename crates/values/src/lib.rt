// The work of both ends once nothing is refused, from numbers to numbers: 01, "The calls" and "Reconciliation". The bytes are the calls' own.

#![tactic(auto)]

pub mod products;
pub mod settle;
