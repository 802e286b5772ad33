//! The commands of jheader: header class files of Java, and what clients find in class files.
#![tactic(auto)]

mod ask;
mod commands;
mod ijar;
mod laws;
mod made;
mod split;
mod write;

pub use ask::answer_questions;
pub use commands::run;
pub use ijar::strip_inputs;
pub use laws::stripped_is_read_again;
pub use run_ends::Status;
