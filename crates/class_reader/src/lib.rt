//! Class files (JVMS 4) to descriptions.
//!
//! A [`Reader`](pool_reader::Reader) goes over the bytes from front to back; each function reads
//! one item.
#![tactic(auto)]

mod class;
mod head;
mod member;

pub use class::{one_description, read_class, reads_what_is_spelled};
pub use pool_reader::{ClassFault, ClassKind, ReadErr};
