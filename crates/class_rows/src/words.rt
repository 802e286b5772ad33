//! Answers as words with blanks between them.
use hdr_core::{List, Text};
use rows::{RowErr, Told};

/// An answer as text.
pub fn text(told: Result<Vec<u8>, RowErr>) -> Result<Told, RowErr> {
    Ok(Told::Text(told?))
}

pub fn add_word(told: &mut Vec<u8>, word: &[u8]) -> Result<(), RowErr> {
    if !told.is_empty() {
        told.extend_from_slice(b" ")?;
    }
    told.extend_from_slice(word)?;
    Ok(())
}

/// A text, or `none`.
pub fn add_name(told: &mut Vec<u8>, name: &Option<Text>) -> Result<(), RowErr> {
    match name {
        Some(text) => add_word(told, text.bytes()),
        None => add_word(told, b"none"),
    }
}

/// Texts in brackets.
pub fn add_names(told: &mut Vec<u8>, names: &List<Text>) -> Result<(), RowErr> {
    add_word(told, b"(")?;
    for name in names.items() {
        add_word(told, name.bytes())?;
    }
    add_word(told, b")")
}

pub fn add_number(told: &mut Vec<u8>, number: u64) -> Result<(), RowErr> {
    let mut digits = itoa::Buffer::new();
    add_word(told, digits.format(number).as_bytes())
}

/// The first, and behind it the second where that is another.
pub fn both(first: Vec<u8>, second: &[u8]) -> Result<Vec<u8>, RowErr> {
    let mut told = first;
    if told.as_slice() != second {
        add_word(&mut told, b"and then")?;
        add_word(&mut told, second)?;
    }
    Ok(told)
}
