ghost use Rattle.std.specs.Prelude.{◌≡◌, IfOk};

use crate::annotation::AnnTree;
use hdr_core::{List, Memory, TryCopy};
use std::alloc::Global;

// The access flags of modifier words (JVMS 4.1, 4.5, 4.6).
pub const PUBLIC: u16 = 0x0001;

pub const PRIVATE: u16 = 0x0002;

pub const PROTECTED: u16 = 0x0004;

pub const STATIC: u16 = 0x0008;

pub const FINAL: u16 = 0x0010;

pub const SYNCHRONIZED: u16 = 0x0020;

pub const VOLATILE: u16 = 0x0040;

pub const TRANSIENT: u16 = 0x0080;

pub const NATIVE: u16 = 0x0100;

pub const ABSTRACT: u16 = 0x0400;

/// Of these flags a declaration has at most one.
pub const ACCESS_FLAGS: u16 = PUBLIC | PRIVATE | PROTECTED;

pub const MODIFIER_FLAGS: u16 = ACCESS_FLAGS
    | STATIC
    | FINAL
    | SYNCHRONIZED
    | VOLATILE
    | TRANSIENT
    | NATIVE
    | ABSTRACT;

/// The modifiers of a declaration (JLS 8.1.1, 8.3.1, 8.4.3, 8.8.3, 9.1.1, 9.4), its annotations
/// among them.
#[derive(Drop)]
pub struct Modifiers {
    /// The access flags of the written words, by the tables of JVMS 4.1, 4.5 and 4.6.
    /// `strictfp` has none.
    pub flags: u16,
    pub is_default: bool,
    pub is_sealed: bool,
    pub non_sealed: bool,
    pub anns: List<AnnTree>,
}

impl Modifiers {
    pub fn copy(&self, alloc: Global) -> Result<Modifiers, Memory>
        ensures { IfOk result (λ copy. copy ≡ self.now) }
    {
        Ok(Modifiers {
            flags: self.flags,
            is_default: self.is_default,
            is_sealed: self.is_sealed,
            non_sealed: self.non_sealed,
            anns: self.anns.copy(alloc)?,
        })
    }
}

impl TryCopy for Modifiers {
    fn try_copy(&self, alloc: Global) -> Result<Modifiers, Memory> {
        self.copy(alloc)
    }
}
