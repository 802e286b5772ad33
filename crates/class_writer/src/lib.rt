//! Descriptions to class files (JVMS 4).
//!
//! What stands behind the pool is laid out as a list of [`Items`](items), in one walk over the
//! description. The checks go over that list, and a [`ClassWriter`](writer) writes it and gathers
//! the pool.
#![tactic(auto)]

mod attributes;
mod big_endian;
mod body;
mod check;
mod class;
mod error;
mod item;
mod items;
mod laws;
mod need;
mod values;
mod write;
mod writer;

pub use error::PoolErr;
pub use laws::{size_is_length, valid_is_written, written_is_spelled};
pub use write::write_class;
