//! Examples of values and of calls to the outside: the tests of hdr_core, in a crate of their
//! own, so that its proofs are checked once.
#![tactic(auto)]

#[cfg(test)]
mod building;
#[cfg(test)]
mod copies;
#[cfg(test)]
mod diagnostics;
#[cfg(test)]
mod errors;
#[cfg(test)]
mod folders;
#[cfg(test)]
mod in_memory;
#[cfg(test)]
mod lists;
#[cfg(test)]
mod odd_folder;
#[cfg(test)]
mod outputs;
#[cfg(test)]
mod slow_system;
#[cfg(test)]
mod stream;
