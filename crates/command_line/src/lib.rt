//! What the words of the command line ask for.
#![tactic(auto)]

mod job;

pub use job::{Command, Job, Refusal, job_of};
