//! The text of a Java source (JLS 3.1 to 3.5, 3.8).
#![tactic(auto)]

mod character;
mod escape;
mod letter;
mod source;
mod white;

pub use character::{
    APOSTROPHE, ASTERISK, BACKSLASH, CARRIAGE_RETURN, FORM_FEED, LINE_FEED, LOW_LINE,
    QUOTATION_MARK, SLASH, SPACE, TAB,
};
pub use escape::hex_digit_value;
pub use letter::{begins_identifier, continues_identifier};
pub use source::{SourceText, source_text};
pub use white::is_white;
