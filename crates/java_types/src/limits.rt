//! Limits of descriptors and signatures.

/// The most dimensions of an array in a descriptor (JVMS 4.3.2). Signatures have no such limit.
pub const MOST_DIMENSIONS: u32 = 255;

/// How deep type arguments of a signature may be nested for it to be read as a tree.
pub const NESTING_LIMIT: u32 = 64;
