// Why the rules come to an end, without any ceiling. This crate has definitions and proofs alone.
#![tactic(auto)]
