//! Graphs over numbers: lists of numbers laid out flat, and which numbers are reached from some.
#![tactic(auto)]

mod rows;
mod search;

pub use rows::Rows;
pub use search::reached;
