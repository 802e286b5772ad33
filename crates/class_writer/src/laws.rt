ghost use Rattle.std.specs.Prelude.{◌≡◌, ◌<◌, ◌^◌, ℕ, List, length, None};
ghost use Rattle.std.specs.List.{AllByRecursion, flat_map};
ghost use Rattle.class_desc.specs.declared.class.ClassDesc.{ClassDesc};
ghost use Rattle.class_desc.specs.ClassFile.{IsValid, ClassSpells};
ghost use Rattle.class_desc.specs.Layout.{Need, Item, item_bytes, size, layout};
ghost use Rattle.class_writer.specs.Refusal.{refusal};

/// A description that some file spells is not refused.
pub fn valid_is_written()
    ensures { (d : ClassDesc) → IsValid d → refusal d ≡ None }
{}

/// What is written for a description that some file spells is a file that spells it.
pub fn written_is_spelled()
    ensures spelled { (d : ClassDesc) → IsValid d → ClassSpells d (layout d) }
    ensures bytes { (d : ClassDesc) → IsValid d → AllByRecursion (λ b. b < 2 ^ 8) (layout d) }
{}

/// The size of items, which is told as the length of an attribute's body, is the number of their
/// bytes, whatever the numbers of their entries are.
pub fn size_is_length()
    ensures { (number : Need → ℕ) → (items : List Item)
        → length (flat_map (item_bytes number) items) ≡ size items }
{}
