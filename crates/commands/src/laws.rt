ghost use Rattle.std.specs.Prelude.{◌≡◌, List, ℕ, None, Ok};
ghost use Rattle.class_desc.specs.declared.class.ClassDesc.{ClassDesc};
ghost use Rattle.class_desc.specs.ClassFile.{IsValid, ClassSpells};
ghost use Rattle.class_desc.specs.Layout.{layout};
ghost use Rattle.class_views.specs.Strip.{strip_class};
ghost use Rattle.pool_reader.specs.Reading.{AreBytes};
ghost use Rattle.class_reader.specs.Reading.{class_of};
ghost use Rattle.class_writer.specs.Refusal.{refusal};

use class_reader::reads_what_is_spelled;
use class_views::stripped_is_valid;
use class_writer::{valid_is_written, written_is_spelled};

/// What is written for a stripped class is read again as that class.
pub fn stripped_is_read_again()
    // The stripped description of one that some file spells is never refused.
    ensures written { (d : ClassDesc) → IsValid d → refusal (strip_class d) ≡ None }
    // Its file spells it.
    ensures spelled { (d : ClassDesc) → IsValid d
        → ClassSpells (strip_class d) (layout (strip_class d)) }
    // So whoever reads that file reads it.
    ensures read { (d : ClassDesc) → IsValid d
        → class_of (layout (strip_class d)) ≡ Ok (strip_class d) }
    // The same of a class that was itself read.
    ensures again { (bytes : List ℕ) (d : ClassDesc) → AreBytes bytes → class_of bytes ≡ Ok d
        → class_of (layout (strip_class d)) ≡ Ok (strip_class d) }
{
    stripped_is_valid();
    valid_is_written();
    written_is_spelled();
    reads_what_is_spelled();
}
