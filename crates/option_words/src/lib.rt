//! The words behind a command as options: each is one word, and its value is the next word.
#![tactic(auto)]

mod options;
mod paths;
mod workers;

pub use options::{Given, options_of, sole_value, values_of};
pub use paths::{path_value, paths_given};
pub use workers::{WORKERS, are_workers};
