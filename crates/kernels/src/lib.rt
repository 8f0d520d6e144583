// The kernels for programs in other languages, to be measured and run from there: each hands on what it is given, and promises what the kernel promises.
// What a kernel asks of its inputs is its caller's to see to; the calls of the product ask nothing.

#![tactic(auto)]

pub mod bytes;
pub mod products;
pub mod remainders;
