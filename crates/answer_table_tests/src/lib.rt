//! A user of answer_table, and its tests, which stand here so that its proofs are checked once.
#![tactic(auto)]

mod squares;
#[cfg(test)]
mod steps;
#[cfg(test)]
mod workers;

pub use squares::shared_squares;
