use crate::error::RowErr;
use crate::pieces::Pieces;
use std::alloc::{AllocError, Global};

/// A question, and the words of what it is about.
#[derive(Clone, Copy)]
pub struct Asked<'a> {
    pub question: &'a str,
    pub input: &'a str,
    pub pieces: &'a Pieces,
}

/// An answer.
#[derive(Drop)]
pub enum Told {
    /// As text, which a row has as it stands.
    Text(Vec<u8>),
    /// As bytes, which a row spells.
    Bytes(Vec<u8>),
}

/// The parts of a row.
#[derive(Clone, Copy)]
pub struct Row<'a> {
    pub question: &'a str,
    pub name: &'a str,
    pub input: &'a str,
    pub wanted: &'a str,
}

impl<'a> Row<'a> {
    pub fn of(line: &'a str) -> Option<Row<'a>> {
        let (front, wanted) = line.rsplit_once(" => ")?;
        let (head, input) = front.split_once(": ")?;
        let (question, name) = head.split_once(' ')?;
        Some(Row {
            question,
            name,
            input,
            wanted,
        })
    }
}

/// The name and the words of a line that names bytes.
pub fn named(line: &str) -> Option<(&str, &str)> {
    line.strip_prefix('$')?.split_once(": ")
}

impl Told {
    /// Whether it is what a row wants.
    pub fn is(&self, alloc: Global, pieces: &Pieces, wanted: &str) -> Result<bool, RowErr> {
        match self {
            Told::Text(told) => Ok(is_text(told, wanted)),
            Told::Bytes(told) => Ok(told.as_slice() == pieces.spelled(alloc, wanted)?.as_slice()),
        }
    }

    /// As a line has it.
    pub fn text(&self, alloc: Global) -> Result<String, AllocError> {
        match self {
            Told::Text(told) if told.is_empty() => String::from_str(alloc, "nothing"),
            Told::Text(told) => String::from_utf8_lossy(alloc, told),
            Told::Bytes(told) => hex::encode(alloc, told),
        }
    }
}

fn is_text(told: &[u8], wanted: &str) -> bool {
    if wanted == "nothing" {
        told.is_empty()
    } else {
        told == wanted.as_bytes()
    }
}
