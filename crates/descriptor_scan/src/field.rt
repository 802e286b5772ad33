ghost use Rattle.std.specs.Prelude.{◌≡◌, ◌==◌, ◌≤◌, true, length, MatchOption};
ghost use Rattle.std.specs.List.{position_or_len, prefix_len};
ghost use Rattle.java_types.specs.declared.types.JType.{JType};
ghost use Rattle.java_types.specs.declared.types.JSig.TheVariants.{OfField};
ghost use Rattle.java_types.specs.Descriptor.{DescriptorSpells, is_element, is_field_type};
ghost use Rattle.java_types.specs.Trees.{ends_class};
ghost use Rattle.descriptor_scan.specs.Forms.{is_field_descriptor as is_field_descriptor_of};
ghost use Rattle.descriptor_scan.specs.Passing.{IsPassed, HasNone, IsNamePassed, HasNoName};

use java_names::is_class_name;
use java_types::{MOST_DIMENSIONS, is_primitive};

/// Whether the text is the descriptor of a field (JVMS 4.3.2).
pub fn is_field_descriptor(text: &[u8]) -> bool
    ensures spelled { result ≡ true → (type : JType) × DescriptorSpells (OfField type) text.now }
    ensures only { (type : JType) → DescriptorSpells (OfField type) text.now → result ≡ true }
    ensures by_text { result ≡ is_field_descriptor_of text.now }
{
    match behind_field(text) {
        Some(rest) => rest.is_empty(),
        None => false,
    }
}

/// What is behind the type of a field at the front of the text.
pub fn behind_field(text: &[u8]) -> Option<&[u8]>
    ensures { MatchOption result
        (HasNone is_field_type text.now)
        (λ rest. IsPassed is_field_type text.now rest.now) }
{
    let dims = brackets(text);
    if dims > MOST_DIMENSIONS as usize {
        return None;
    }
    behind_element(&text[dims..])
}

/// How many `[` are at the front.
fn brackets(text: &[u8]) -> usize
    ensures value { result ≡ prefix_len (λ b. b == 91) text.now }
    ensures bound { result ≤ length text.now }
{
    text.iter().take_while(|b| **b == b'[').count()
}

/// What is behind a type that is no array.
fn behind_element(text: &[u8]) -> Option<&[u8]>
    ensures { MatchOption result
        (HasNone is_element text.now)
        (λ rest. IsPassed is_element text.now rest.now) }
{
    match text {
        [b'L', name @ ..] => behind_class_name(name),
        [letter, rest @ ..] if is_primitive(*letter) => Some(rest),
        _ => None,
    }
}

/// What is behind the name of a class and its `;`.
fn behind_class_name(text: &[u8]) -> Option<&[u8]>
    ensures { MatchOption result
        (HasNoName text.now)
        (λ rest. IsNamePassed text.now rest.now) }
{
    let (name, behind) = text.split_at(name_length(text));
    match behind {
        [_, rest @ ..] if is_class_name(name) => Some(rest),
        _ => None,
    }
}

/// How many bytes are in front of the first `;`.
fn name_length(text: &[u8]) -> usize
    ensures value { result ≡ position_or_len ends_class text.now }
    ensures bound { result ≤ length text.now }
{
    text.iter().take_while(|b| **b != b';').count()
}
