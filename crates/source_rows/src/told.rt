//! Answers as text.
use rows::{RowErr, Told};

/// An answer as text.
pub fn text(told: Result<Vec<u8>, RowErr>) -> Result<Told, RowErr> {
    Ok(Told::Text(told?))
}

pub fn add(told: &mut Vec<u8>, piece: &[u8]) -> Result<(), RowErr> {
    told.extend_from_slice(piece)?;
    Ok(())
}

pub fn add_number(told: &mut Vec<u8>, number: u64) -> Result<(), RowErr> {
    let mut digits = itoa::Buffer::new();
    add(told, digits.format(number).as_bytes())
}

/// The first, and behind it the second where that is another.
pub fn both(first: Vec<u8>, second: &[u8]) -> Result<Vec<u8>, RowErr> {
    let mut told = first;
    if told.as_slice() != second {
        add(&mut told, b" and then ")?;
        add(&mut told, second)?;
    }
    Ok(told)
}
