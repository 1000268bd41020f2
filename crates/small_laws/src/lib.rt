//! Laws of tests, numbers, lists and answers that the standard library lacks: proofs alone, with nothing to call.
#![tactic(auto)]
