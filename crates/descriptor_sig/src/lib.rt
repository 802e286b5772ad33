//! Descriptors and signatures (JVMS 4.3, 4.7.9.1), from texts to trees and back.
#![tactic(auto)]

mod descriptor;
mod descriptor_reader;
mod error;
mod signature;
mod signature_reader;
mod stop;
mod write;

pub use descriptor::read_descriptor;
pub use error::SigErr;
pub use java_types::SigPlace;
pub use signature::read_signature;
pub use write::write_signature;
