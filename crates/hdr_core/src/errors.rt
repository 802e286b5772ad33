use crate::files::LONGEST_FILE;
use crate::memory::Memory;
use std::alloc::{AllocError, AllocFailed};
use thiserror::Error;

/// Why a call to the outside world was refused.
#[derive(Clone, Copy, Debug, PartialEq, Eq, Error)]
pub enum CallErr {
    /// The outside world did not do it. The count of faults of the object that was called rose by
    /// one.
    #[error("input or output failed")]
    Failed,
    #[error("out of memory")]
    Memory,
}

/// Why a file was not read.
#[derive(Clone, Copy, Debug, PartialEq, Eq, Error)]
pub enum FileErr {
    /// The outside world did not do it. The count of faults of the object that was called rose by
    /// one.
    #[error("input failed")]
    Failed,
    #[error("out of memory")]
    Memory,
    /// The file is longer than [`LONGEST_FILE`](crate::LONGEST_FILE) bytes.
    #[error("file is longer than {} bytes", LONGEST_FILE)]
    TooLong,
}

impl From<Memory> for CallErr {
    ghost use Rattle.std.specs.Prelude.{◌≡◌};
    ghost use Rattle.hdr_core.specs.declared.errors.CallErr.TheVariants.{Memory};

    ghost from_gives = { λ _ refusal. refusal ≡ Memory };

    fn from(_refused: Memory) -> CallErr {
        CallErr::Memory
    }
}

impl From<AllocError> for CallErr {
    ghost use Rattle.std.specs.Prelude.{◌≡◌};
    ghost use Rattle.hdr_core.specs.declared.errors.CallErr.TheVariants.{Memory};

    ghost from_gives = { λ _ refusal. refusal ≡ Memory };

    fn from(_refused: AllocError) -> CallErr {
        CallErr::Memory
    }
}

impl<T: Drop> From<AllocFailed<T>> for CallErr {
    ghost use Rattle.std.specs.Prelude.{◌≡◌};
    ghost use Rattle.hdr_core.specs.declared.errors.CallErr.TheVariants.{Memory};

    ghost from_gives = { λ _ refusal. refusal ≡ Memory };

    fn from(_refused: AllocFailed<T>) -> CallErr {
        CallErr::Memory
    }
}

impl From<Memory> for FileErr {
    ghost use Rattle.std.specs.Prelude.{◌≡◌};
    ghost use Rattle.hdr_core.specs.declared.errors.FileErr.TheVariants.{Memory};

    ghost from_gives = { λ _ refusal. refusal ≡ Memory };

    fn from(_refused: Memory) -> FileErr {
        FileErr::Memory
    }
}

impl From<AllocError> for FileErr {
    ghost use Rattle.std.specs.Prelude.{◌≡◌};
    ghost use Rattle.hdr_core.specs.declared.errors.FileErr.TheVariants.{Memory};

    ghost from_gives = { λ _ refusal. refusal ≡ Memory };

    fn from(_refused: AllocError) -> FileErr {
        FileErr::Memory
    }
}

impl<T: Drop> From<AllocFailed<T>> for FileErr {
    ghost use Rattle.std.specs.Prelude.{◌≡◌};
    ghost use Rattle.hdr_core.specs.declared.errors.FileErr.TheVariants.{Memory};

    ghost from_gives = { λ _ refusal. refusal ≡ Memory };

    fn from(_refused: AllocFailed<T>) -> FileErr {
        FileErr::Memory
    }
}
