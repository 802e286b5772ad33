ghost use Rattle.std.specs.Prelude.{◌≡◌};
ghost use Rattle.client_view.specs.declared.refused.ViewErr.TheVariants.{Memory};

use std::alloc::{AllocError, AllocFailed};

/// Why there is no world.
#[derive(Clone, Copy)]
pub enum ViewErr {
    /// Two classes have one name: the first such pair by its second class, then by its first.
    Repeated { first: u32, second: u32 },
    /// Want of memory.
    Memory,
}

impl From<AllocError> for ViewErr {
    ghost from_gives = { λ _ e. e ≡ Memory };

    fn from(_refused: AllocError) -> ViewErr {
        ViewErr::Memory
    }
}

impl<T: Drop> From<AllocFailed<T>> for ViewErr {
    ghost from_gives = { λ _ e. e ≡ Memory };

    fn from(_refused: AllocFailed<T>) -> ViewErr {
        ViewErr::Memory
    }
}

impl From<hdr_core::Memory> for ViewErr {
    ghost from_gives = { λ _ e. e ≡ Memory };

    fn from(_refused: hdr_core::Memory) -> ViewErr {
        ViewErr::Memory
    }
}
