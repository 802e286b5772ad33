//! How a run ends: files are put in their order, texts are told, and a status is answered.
#![tactic(auto)]

mod lines;
mod out_file;
mod put;
mod status;
mod tell;

pub use lines::tell_lines;
pub use out_file::{OutFile, sort_files};
pub use put::put_files;
pub use status::Status;
pub use tell::{tell_refusal, tell_stop};
