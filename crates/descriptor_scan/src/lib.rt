//! Whether a text is a descriptor (JVMS 4.3.2, 4.3.3), found without a tree and without memory.
#![tactic(auto)]

mod field;
mod method;

pub use field::is_field_descriptor;
pub use method::parameter_slots;
