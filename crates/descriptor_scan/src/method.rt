ghost use Rattle.std.specs.Prelude.{◌≡◌, ℕ, true, List, [], Some, MatchOption};
ghost use Rattle.java_types.specs.declared.types.JType.{JType};
ghost use Rattle.java_types.specs.declared.types.JSig.TheVariants.{OfMethod};
ghost use Rattle.java_types.specs.Types.{type_text};
ghost use Rattle.java_types.specs.Descriptor.{DescriptorSpells, is_return_type};
ghost use Rattle.descriptor_scan.specs.Forms.{slots, parameter_slots as parameter_slots_of};
ghost use Rattle.descriptor_scan.specs.Passing.{ArePassed, HasNoParameters, first_slots};

use crate::field::{behind_field, is_field_descriptor};

/// How many slots the parameters of a method take, without `this`: two for each long and double,
/// one for each other (JVMS 4.3.3).
///
/// None where the text is no descriptor of a method. The limit of 255 slots is the caller's.
pub fn parameter_slots(text: &[u8]) -> Option<usize>
    ensures spelled { (count : ℕ)
        → result ≡ Some count
        → (formals : List JType)
        × (ret : JType)
        × DescriptorSpells (OfMethod [] formals ret []) text.now
        × (count ≡ slots formals) }
    ensures only { (formals : List JType) (ret : JType)
        → DescriptorSpells (OfMethod [] formals ret []) text.now
        → result ≡ Some (slots formals) }
    ensures by_text { result ≡ parameter_slots_of text.now }
{
    let [b'(', formals @ ..] = text else {
        return None;
    };
    let Some((count, ret)) = behind_formals(formals) else {
        return None;
    };
    if is_result(ret) { Some(count) } else { None }
}

/// The slots of the parameters at the front, and what is behind their `)`.
fn behind_formals(text: &[u8]) -> Option<(usize, &[u8])>
    ensures { MatchOption result
        (HasNoParameters text.now)
        (λ found. ArePassed text.now found.1.now found.0) }
{
    let mut count = 0;
    let mut rest = text;
    loop {
        if let [b')', behind @ ..] = rest {
            return Some((count, behind));
        }
        let Some(behind) = behind_field(rest) else {
            return None;
        };
        count += slots_at(rest);
        rest = behind;
    }
}

/// The slots of the type at the front.
fn slots_at(text: &[u8]) -> usize
    ensures { result ≡ first_slots text.now }
{
    match text {
        [b'D' | b'J', ..] => 2,
        _ => 1,
    }
}

/// Whether the text is the result of a method in a descriptor.
fn is_result(text: &[u8]) -> bool
    ensures spelled { result ≡ true
        → (type : JType)
        × (is_return_type type ≡ true)
        × (text.now ≡ type_text type) }
    ensures only { (type : JType)
        → is_return_type type ≡ true
        → text.now ≡ type_text type
        → result ≡ true }
{
    match text {
        [b'V'] => true,
        _ => is_field_descriptor(text),
    }
}
