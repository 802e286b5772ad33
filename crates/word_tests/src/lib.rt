//! Examples of words: the tests of command_line and of the crates that it reads them with, in a
//! crate of their own, so that the proofs of those are checked once.
#![tactic(auto)]

#[cfg(test)]
mod archives;
#[cfg(test)]
mod ask;
#[cfg(test)]
mod building;
#[cfg(test)]
mod ijar;
#[cfg(test)]
mod limits;
#[cfg(test)]
mod values;
