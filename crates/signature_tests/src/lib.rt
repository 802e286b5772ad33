//! Examples of names, descriptors and signatures: the tests of java_names, java_types,
//! signature_scan, descriptor_scan and descriptor_sig, in a crate of their own, so that the
//! proofs of those are checked once.
#![tactic(auto)]

#[cfg(test)]
mod descriptors;
#[cfg(test)]
mod names;
#[cfg(test)]
mod nesting;
#[cfg(test)]
mod scanning;
#[cfg(test)]
mod signatures;
#[cfg(test)]
mod slots;
#[cfg(test)]
mod trees;
#[cfg(test)]
mod writing;
