ghost use Rattle.std.specs.Prelude.{◌≡◌, ◌↔◌, ◌<◌, ◌^◌, true, List, ℕ, Some};
ghost use Rattle.std.specs.List.{AllByRecursion};
ghost use Rattle.java_names.specs.ModifiedUtf8.{modified_utf8, IsModifiedUtf8};
ghost use Rattle.std.specs.Str.{IsUtf8};
ghost use Rattle.java_names.specs.Paths.{name_of_path, path_of_name};
ghost use Rattle.java_names.specs.Units.{units_of, is_modified_utf8};

/// A text in modified UTF-8 has the units that spell it, and no others.
pub fn units_spell_their_text()
    ensures found { (units : List ℕ)
        → AllByRecursion (λ unit. unit < 2 ^ 16) units
        → units_of (modified_utf8 units) ≡ Some units }
    ensures spelled { (bytes units : List ℕ)
        → units_of bytes ≡ Some units
        → bytes ≡ modified_utf8 units }
    // The test of a text is the relation.
    ensures test { (bytes : List ℕ) → is_modified_utf8 bytes ≡ true ↔ IsModifiedUtf8 bytes }
{}

/// The path of the name that a path spells is that path.
pub fn a_path_is_that_of_its_name()
    ensures { (path : List ℕ) → IsUtf8 path → path_of_name (name_of_path path) ≡ Some path }
{}
