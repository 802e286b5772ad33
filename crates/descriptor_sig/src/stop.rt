ghost use Rattle.std.specs.Prelude.{◌≡◌};
ghost use Rattle.descriptor_sig.specs.declared.stop.Stop.TheVariants.{Memory};

use std::alloc::{AllocError, AllocFailed};

/// Why a reader has no part of a descriptor.
#[derive(Clone, Copy)]
pub enum Stop {
    /// What is left begins with the first byte that fits
    /// nowhere, or is nothing where more has to follow.
    Stuck,
    Memory,
}

impl From<AllocError> for Stop {
    ghost from_gives = { λ _ e. e ≡ Memory };

    fn from(_refused: AllocError) -> Stop {
        Stop::Memory
    }
}

impl<T: Drop> From<AllocFailed<T>> for Stop {
    ghost from_gives = { λ _ e. e ≡ Memory };

    fn from(_refused: AllocFailed<T>) -> Stop {
        Stop::Memory
    }
}

impl From<hdr_core::Memory> for Stop {
    ghost from_gives = { λ _ e. e ≡ Memory };

    fn from(_refused: hdr_core::Memory) -> Stop {
        Stop::Memory
    }
}
