//! Examples of the text of `ask`: the tests of ask_text, in a crate of their own, so that the
//! proofs of that are checked once.
#![tactic(auto)]

#[cfg(test)]
mod answers;
#[cfg(test)]
mod building;
#[cfg(test)]
mod found;
#[cfg(test)]
mod worlds;
