ghost use Rattle.std.specs.Prelude.{◌≡◌};
ghost use Rattle.pool_reader.specs.declared.fault.ReadErr.TheVariants.{Memory, Fault};

use std::alloc::{AllocError, AllocFailed};

/// Which check of a class file failed.
#[derive(Clone, Copy, Debug, PartialEq, Eq)]
pub enum ClassKind {
    /// An item isn't whole.
    F1,
    /// It is no class file.
    F2,
    /// The version is none of 45 to 61.
    F3,
    /// A tag of the pool is unknown.
    F4,
    /// An entry of the pool, its number or the pool's count is wrong.
    F5,
    /// A text is no modified UTF-8.
    F6,
    /// A name, a descriptor or a signature hasn't its form, or the tag of a value is unknown.
    F7,
    /// The length of an attribute is wrong.
    F8,
    /// A member, an attribute or an inner class stands twice.
    F9,
    /// Bytes follow the end.
    F10,
    /// The superclass is wrong, or the flag of modules is set.
    F11,
    /// A value or a signature is nested too deep.
    F12,
    /// The texts that are named have more bytes in all than a description may have.
    F13,
}

/// The first check that failed, and the offset of the item that it is about.
#[derive(Clone, Copy, Debug, PartialEq, Eq)]
pub struct ClassFault {
    pub offset: u32,
    pub kind: ClassKind,
}

/// Why a reading ended.
#[derive(Clone, Copy, Debug, PartialEq, Eq)]
pub enum ReadErr {
    /// A check of the bytes failed.
    Fault(ClassFault),
    /// Memory ran out.
    Memory,
}

impl ClassKind {
    /// The fault of this kind at an item.
    pub fn at(self, offset: u32) -> ReadErr
        ensures { result ≡ Fault (record { offset = offset; kind = self }) }
    {
        ReadErr::Fault(ClassFault { offset, kind: self })
    }
}

impl From<AllocError> for ReadErr {
    ghost from_gives = { λ _ e. e ≡ Memory };

    fn from(_refused: AllocError) -> ReadErr {
        ReadErr::Memory
    }
}

impl<T: Drop> From<AllocFailed<T>> for ReadErr {
    ghost from_gives = { λ _ e. e ≡ Memory };

    fn from(_refused: AllocFailed<T>) -> ReadErr {
        ReadErr::Memory
    }
}

impl From<hdr_core::Memory> for ReadErr {
    ghost from_gives = { λ _ e. e ≡ Memory };

    fn from(_refused: hdr_core::Memory) -> ReadErr {
        ReadErr::Memory
    }
}
