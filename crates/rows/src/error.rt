use hdr_core::Memory;
use std::alloc::{AllocError, AllocFailed};
use std::fmt;

/// Why a row has no answer.
#[derive(Clone, Copy, Debug, PartialEq, Eq)]
pub enum RowErr {
    /// Memory ran out.
    Memory,
    /// The line has not the form of a row, nor that of named bytes.
    NoRow,
    /// No subject knows the question.
    NoQuestion,
    /// The input or the answer spells no bytes: a word is none, or a number, or a name.
    NoBytes,
    /// The bytes are none of what the question is about.
    NoSubject,
}

impl From<AllocError> for RowErr {
    fn from(_refused: AllocError) -> RowErr {
        RowErr::Memory
    }
}

impl<T: Drop> From<AllocFailed<T>> for RowErr {
    fn from(_refused: AllocFailed<T>) -> RowErr {
        RowErr::Memory
    }
}

impl From<Memory> for RowErr {
    fn from(_refused: Memory) -> RowErr {
        RowErr::Memory
    }
}

impl fmt::Display for RowErr {
    fn fmt<W: fmt::Write>(&self, f: &mut fmt::Formatter<W>) -> fmt::Result {
        f.write_str(match self {
            RowErr::Memory => "out of memory",
            RowErr::NoRow => "no row",
            RowErr::NoQuestion => "no question",
            RowErr::NoBytes => "no bytes",
            RowErr::NoSubject => "no subject",
        })
    }
}
