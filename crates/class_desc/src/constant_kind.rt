//! What a constant of a type is in the pool (JVMS tables 4.7.2-A, 4.7.16.1-A).
ghost use Rattle.std.specs.Prelude.{◌≡◌};
ghost use Rattle.class_desc.specs.Constants.{number_of_letter, field_constant, element_constant};

use crate::element_tag;

/// A number in the pool (JVMS 4.4.4, 4.4.5).
#[derive(Clone, Copy, Debug, PartialEq, Eq, Hash)]
pub enum NumberKind {
    Integer,
    Float,
    Long,
    Double,
}

/// What a constant is.
#[derive(Clone, Copy, Debug, PartialEq, Eq)]
pub enum ConstantKind {
    Number(NumberKind),
    /// A string in a field, a text in the value of an element.
    Text,
}

/// The numbers of the primitive types, by the letters of these: those of fields' descriptors and
/// of values' tags.
pub const NUMBER_LETTERS: [(u8, NumberKind); 8] = [
    (b'B', NumberKind::Integer),
    (b'C', NumberKind::Integer),
    (b'D', NumberKind::Double),
    (b'F', NumberKind::Float),
    (b'I', NumberKind::Integer),
    (b'J', NumberKind::Long),
    (b'S', NumberKind::Integer),
    (b'Z', NumberKind::Integer),
];

/// The descriptor of the fields that have strings (JVMS table 4.7.2-A).
pub const STRING_DESCRIPTOR: &[u8] = b"Ljava/lang/String;";

impl ConstantKind {
    /// The constant of a field of this descriptor, if it may have one (JVMS 4.7.2).
    pub fn of_field(descriptor: &[u8]) -> Option<ConstantKind>
        ensures { result ≡ field_constant descriptor.now }
    {
        match descriptor {
            [letter] => number_of(*letter),
            _ => {
                if descriptor == STRING_DESCRIPTOR {
                    Some(ConstantKind::Text)
                } else {
                    None
                }
            }
        }
    }

    /// The constant under this tag, if it is the tag of one (JVMS 4.7.16.1).
    pub fn of_element(tag: u8) -> Option<ConstantKind>
        ensures { result ≡ element_constant tag }
    {
        if tag == element_tag::TEXT {
            Some(ConstantKind::Text)
        } else {
            number_of(tag)
        }
    }
}

fn number_of(letter: u8) -> Option<ConstantKind>
    ensures { result ≡ number_of_letter letter }
{
    let row = NUMBER_LETTERS.iter().find(|row| row.0 == letter)?;
    Some(ConstantKind::Number(row.1))
}
