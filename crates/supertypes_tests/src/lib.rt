//! Examples of supertypes by number: the tests of supertypes, in a crate of their own, so that its
//! proofs are checked once.
#![tactic(auto)]

#[cfg(test)]
mod tables;
