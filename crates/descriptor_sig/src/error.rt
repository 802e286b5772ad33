ghost use Rattle.std.specs.Prelude.{◌≡◌};
ghost use Rattle.descriptor_sig.specs.declared.error.SigErr.TheVariants.{Memory};

use std::alloc::{AllocError, AllocFailed};

/// Why a text has no tree.
#[derive(Clone, Copy, Debug, PartialEq, Eq)]
pub enum SigErr {
    /// The text is no spelling. `at` is the length of the longest prefix that begins one.
    BadText { at: u32 },
    /// The text is a signature whose type arguments are nested
    /// more than 64 deep. `at` is the place where the 65th opens.
    TooDeep { at: u32 },
    Memory,
}

impl From<AllocError> for SigErr {
    ghost from_gives = { λ _ e. e ≡ Memory };

    fn from(_refused: AllocError) -> SigErr {
        SigErr::Memory
    }
}

impl<T: Drop> From<AllocFailed<T>> for SigErr {
    ghost from_gives = { λ _ e. e ≡ Memory };

    fn from(_refused: AllocFailed<T>) -> SigErr {
        SigErr::Memory
    }
}

impl From<hdr_core::Memory> for SigErr {
    ghost from_gives = { λ _ e. e ≡ Memory };

    fn from(_refused: hdr_core::Memory) -> SigErr {
        SigErr::Memory
    }
}
