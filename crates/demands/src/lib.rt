// The promises of the kernel's calls and the customer's three demands, as definitions (specs/) and theorems (proofs/). This crate has no code.
#![tactic(auto)]
