//! Limits of descriptions.

/// The most bytes that the texts of a description have in all, each text as often as it stands
/// there. A class file can name one long text many times, so a small one can have very much text.
pub const MOST_TEXT: usize = 67_108_864;
