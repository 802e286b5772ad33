//! Types, descriptors and signatures as values, and the texts that spell them (JVMS 4.3, 4.7.9.1).
#![tactic(auto)]

mod laws;
mod limits;
mod production;
mod threads;
mod types;

pub use laws::{descriptor_by_text, one_descriptor, one_signature, signature_by_text};
pub use limits::{MOST_DIMENSIONS, NESTING_LIMIT};
pub use production::{Production, SigPlace, is_primitive};
pub use types::{JArg, JParam, JPart, JSig, JType};
