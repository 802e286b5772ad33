//! Examples of paths and of runs: the tests of used_files and commands, in a crate of their own, so
//! that the proofs of those are checked once.
#![tactic(auto)]

#[cfg(test)]
mod ask_faults;
#[cfg(test)]
mod asks;
#[cfg(test)]
mod at_the_limits;
#[cfg(test)]
mod attributes;
#[cfg(test)]
mod building;
#[cfg(test)]
mod faults;
#[cfg(test)]
mod folders;
#[cfg(test)]
mod limits;
#[cfg(test)]
mod paths;
#[cfg(test)]
mod running;
#[cfg(test)]
mod runs;
#[cfg(test)]
mod shapes;
