//! Lemmas on lists and tables that proofs of several crates cite. No code.
#![tactic(auto)]
