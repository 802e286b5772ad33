//! Laws of stripping.
ghost use Rattle.std.specs.Prelude.{◌≡◌, List};
ghost use Rattle.class_desc.specs.declared.attribute.InnerEntry.{InnerEntry};
ghost use Rattle.class_desc.specs.declared.class.ClassDesc.{ClassDesc};
ghost use Rattle.class_desc.specs.ClassFile.{IsValid};
ghost use Rattle.class_views.specs.OneOfAKind.{HasOneOfEach};
ghost use Rattle.class_views.specs.Staying.{IsLeast};
ghost use Rattle.class_views.specs.Strip.{HasOneInnerClasses, entry_begins, names_entry};
ghost use Rattle.class_views.specs.Strip.{stays_entry, strip_class, strip_view};
ghost use Rattle.class_views.specs.Kept.{is_no_local, names_class, is_kept};
ghost use Rattle.class_views.specs.View.{view_of_desc};

/// The entries of an InnerClasses that stay are the least set that has those for the classes which
/// the stripped class names and for its own members, and with each entry those for its outer
/// class.
pub fn staying_entries_are_least()
    ensures { (d : ClassDesc) → (entries : List InnerEntry) →
        IsLeast (entry_begins d) names_entry entries (stays_entry d entries) }
{}

/// The kept classes of a list are the least set that has those which are neither local nor
/// anonymous, and with each class those that it names as superclass or superinterface.
pub fn kept_classes_are_least()
    ensures { (list : List ClassDesc) → IsLeast is_no_local names_class list (is_kept list) }
{}

/// Where some file spells a description, some file spells the stripped one.
pub fn stripped_is_valid()
    ensures { (d : ClassDesc) → IsValid d → IsValid (strip_class d) }
{}

/// A description that some file spells has at most one attribute of a kind at each place, and so
/// has the stripped one; of InnerClasses there is then at most one.
pub fn valid_has_one_of_a_kind()
    ensures each { (d : ClassDesc) → IsValid d → HasOneOfEach d }
    ensures stripped { (d : ClassDesc) → IsValid d → HasOneOfEach (strip_class d) }
    ensures inner_classes { (d : ClassDesc) → IsValid d → HasOneInnerClasses d }
{}

/// The view of the stripped description is the stripped view, where the description has no two
/// InnerClasses: of two the first may go, and then the second tells of the class.
pub fn strip_shows_the_stripped_view()
    ensures one { (d : ClassDesc) → HasOneInnerClasses d → view_of_desc (strip_class d)
        ≡ strip_view (view_of_desc d) }
    // So is that of each description that some file spells.
    ensures valid { (d : ClassDesc) → IsValid d → view_of_desc (strip_class d)
        ≡ strip_view (view_of_desc d) }
{}
