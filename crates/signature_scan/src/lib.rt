//! Whether a text is a signature (JVMS 4.7.9.1), found
//! in one pass that builds no tree and takes no memory.
#![tactic(auto)]

mod laws;
mod part;
mod scanner;
mod state;
mod verdict;

pub use java_types::SigPlace;
pub use laws::{beginning_by_text, verdict_by_text};
pub use scanner::scan;
pub use verdict::Verdict;
