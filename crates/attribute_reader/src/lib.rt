//! The items of a class file that name entries of its pool, and attributes (JVMS 4.7).
//!
//! A [`Reader`](pool_reader::Reader) goes over the bytes from front to back; the body of an
//! attribute has a reader of its own.
#![tactic(auto)]

mod attribute;
mod bodies;
mod constants;
mod forms;
mod laws;
mod lists;
mod values;

pub use attribute::attributes;
pub use forms::{Form, class_name, class_of_number};
pub use laws::reads_spelled_attributes;
pub use lists::class_names;
