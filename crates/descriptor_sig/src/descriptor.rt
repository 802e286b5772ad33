ghost use Rattle.std.specs.Prelude.{◌≡◌, ◌<◌, ◌^◌, length, IfOk, Some};
ghost use Rattle.java_types.specs.declared.types.JSig.{JSig};
ghost use Rattle.java_types.specs.Descriptor.{DescriptorSpells};
ghost use Rattle.java_types.specs.Spelling.{IsBadText};
ghost use Rattle.java_types.specs.Trees.{descriptor_of};
ghost use Rattle.descriptor_sig.specs.Refusals.{IfBadText, IfTooDeep};

use crate::descriptor_reader::DescriptorReader;
use crate::error::SigErr;
use crate::stop::Stop;
use hdr_core::Text;
use java_types::JSig;
use std::alloc::Global;

/// Reads the descriptor of a field or a method (JVMS 4.3.2, 4.3.3).
///
/// The limit of 255 slots (JVMS 4.3.3) isn't looked at.
pub fn read_descriptor(alloc: Global, text: &Text) -> Result<JSig, SigErr>
    requires { length text.now < 2 ^ 32 }
    ensures spelled { IfOk result (λ sig. DescriptorSpells sig text.now) }
    ensures only { IfOk result
        (λ sig. (other : JSig) → DescriptorSpells other text.now → other ≡ sig) }
    ensures by_text { IfOk result (λ sig. descriptor_of text.now ≡ Some sig) }
    ensures bad { IfBadText result (λ at. IsBadText DescriptorSpells text.now at) }
    ensures not_deep { IfTooDeep result (λ at. ⊥) }
{
    let bytes = text.bytes();
    let mut reader = DescriptorReader::of(bytes);
    match reader.whole(alloc) {
        Ok(sig) => Ok(sig),
        Err(Stop::Stuck) => Err(SigErr::BadText {
            at: (bytes.len() - reader.left()) as u32,
        }),
        Err(Stop::Memory) => Err(SigErr::Memory),
    }
}
