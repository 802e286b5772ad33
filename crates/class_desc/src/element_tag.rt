//! The tags of the values of elements that are no numbers (JVMS table 4.7.16.1-A).

/// A text.
pub const TEXT: u8 = b's';

/// A constant of an enum.
pub const ENUMERATED: u8 = b'e';

/// A class.
pub const CLASS: u8 = b'c';

/// An annotation.
pub const ANNOTATION: u8 = b'@';

/// A list of values.
pub const LIST: u8 = b'[';
