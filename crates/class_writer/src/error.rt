ghost use Rattle.std.specs.Prelude.{◌≡◌};
ghost use Rattle.class_writer.specs.declared.error.PoolErr.TheVariants.{Memory};

/// Why a description has no class file, in the order of the checks.
#[derive(Clone, Copy, Debug, PartialEq, Eq)]
pub enum PoolErr {
    /// A text has more than 65,535 bytes (JVMS 4.4.7): the first in the order of the file.
    TextTooLong { length: u64 },
    /// A list has more entries than its field holds, 255 for parameters (JVMS 4.7.18, 4.7.19,
    /// 4.7.24) and else 65,535, or the body of an attribute more than 4,294,967,295 bytes (JVMS
    /// 4.7): the first in the order of the file. A size is told up to the greatest number of 64
    /// bits.
    TooMany { count: u64 },
    /// The pool needs more than 65,534 numbers (JVMS 4.1).
    PoolFull { needed: u64 },
    /// Want of memory.
    Memory,
}

impl From<hdr_core::Memory> for PoolErr {
    ghost from_gives = { λ _ e. e ≡ Memory };

    fn from(_refused: hdr_core::Memory) -> PoolErr {
        PoolErr::Memory
    }
}
