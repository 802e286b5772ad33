ghost use Rattle.std.specs.Prelude.{◌≡◌};
ghost use Rattle.type_expr_parser.specs.declared.error.Unread.TheVariants.{Memory as NoMemory};

use std::alloc::{AllocError, AllocFailed};

/// Why tokens gave no tree.
#[derive(Clone, Copy, Debug, PartialEq, Eq)]
pub enum ExprErr {
    /// No tree is spelled so.
    NotSpelled,
    /// More is open, or counted, than is read.
    TooDeep,
    Memory,
}

/// Why an item was not read.
#[derive(Clone, Copy, Debug, PartialEq, Eq)]
pub enum Unread {
    /// It isn't there.
    NotSpelled,
    Memory,
}

impl From<AllocError> for Unread {
    ghost from_gives = { λ _ e. e ≡ NoMemory };

    fn from(_refused: AllocError) -> Unread {
        Unread::Memory
    }
}

impl<T: Drop> From<AllocFailed<T>> for Unread {
    ghost from_gives = { λ _ e. e ≡ NoMemory };

    fn from(_refused: AllocFailed<T>) -> Unread {
        Unread::Memory
    }
}

impl From<hdr_core::Memory> for Unread {
    ghost from_gives = { λ _ e. e ≡ NoMemory };

    fn from(_refused: hdr_core::Memory) -> Unread {
        Unread::Memory
    }
}
