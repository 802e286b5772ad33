ghost use Rattle.std.specs.Prelude.{◌≡◌};
ghost use Rattle.segments.specs.declared.error.SegErr.TheVariants.{Memory as NoMemory};

use hdr_core::Memory;

/// Why a list of tokens has no segments.
#[derive(Debug, PartialEq, Eq, Drop)]
pub enum SegErr {
    /// The line of the first closing bracket that doesn't pair, else of the first opening bracket
    /// that stays open.
    Unbalanced { line: u32 },
    /// The line on which the first class body that stands in more than 64, itself counted, has its
    /// head's first token.
    TooDeep { line: u32 },
    Memory,
}

impl From<Memory> for SegErr {
    ghost from_gives = { λ _ error. error ≡ NoMemory };

    fn from(_memory: Memory) -> SegErr {
        SegErr::Memory
    }
}
