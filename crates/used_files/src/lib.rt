//! Which files a job uses: the class files under its roots, in their order, each path once.
#![tactic(auto)]

mod file_path;
mod kinds;
mod paths;
mod repeats;
mod stop;
mod used;

pub use file_path::FilePath;
pub use kinds::FileKinds;
pub use paths::{is_module, part_below, stem};
pub use repeats::repeated_marks;
pub use stop::Stop;
pub use used::{UsedPath, first_uses, list_roots, used_paths};
