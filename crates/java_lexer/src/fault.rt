//! Why a text has no tokens.

use hdr_core::Memory;

/// The first place without a piece, by longest match (JLS 3.2).
#[derive(Clone, Copy, Debug, PartialEq, Eq)]
pub struct LexFault {
    /// Its line, from 1.
    pub line: u32,
    pub kind: LexKind,
}

#[derive(Clone, Copy, Debug, PartialEq, Eq)]
pub enum LexKind {
    /// The bytes there are no UTF-8.
    Utf8,
    /// No piece begins there.
    NoToken,
}

#[derive(Clone, Copy, Debug, PartialEq, Eq)]
pub enum LexErr {
    Fault(LexFault),
    /// Want of memory.
    Memory,
}

impl From<Memory> for LexErr {
    ghost use Rattle.std.specs.Prelude.{◌≡◌};
    ghost use Rattle.java_lexer.specs.declared.fault.LexErr.TheVariants as error;

    ghost from_gives = { λ _ e. e ≡ error.Memory };

    fn from(_refused: Memory) -> LexErr {
        LexErr::Memory
    }
}
