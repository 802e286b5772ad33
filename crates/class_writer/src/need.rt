//! Entries of the pool by what they say.
ghost use Rattle.std.specs.Prelude.{◌≡◌};
ghost use Rattle.class_desc.specs.Layout.{constant_need};
ghost use Rattle.class_writer.specs.Seen.{need_seen, text_need};

use class_desc::Value;
use hdr_core::Text;

/// A number in the pool (JVMS 4.4.4, 4.4.5).
#[derive(Clone, Copy, PartialEq, Eq, Hash)]
pub enum NumberKind {
    Integer,
    Float,
    Long,
    Double,
}

/// What something in a class file needs in the pool, in the texts of the description.
#[derive(Clone, Copy, PartialEq, Eq, Hash)]
pub enum Need<'a> {
    Text(&'a [u8]),
    /// The class of this name.
    Class(&'a [u8]),
    /// The string of this text.
    String(&'a [u8]),
    /// A number of these bits.
    Number(NumberKind, u64),
}

/// What stands at a number of the pool.
#[derive(Clone, Copy, PartialEq, Eq, Hash)]
pub enum Slot<'a> {
    Held(Need<'a>),
    /// Nothing, behind the long of these bits (JVMS 4.4.5).
    BehindLong(u64),
    /// Nothing, behind the double of these bits (JVMS 4.4.5).
    BehindDouble(u64),
}

/// Where a constant stands.
#[derive(Clone, Copy)]
pub enum Place {
    /// In a field, which has a text as a string (JVMS 4.7.2).
    Field,
    /// In an annotation, which has a text as it is (JVMS 4.7.16.1).
    Element,
}

fn need_of_text<'a>(text: &'a Text, place: Place) -> Need<'a>
    ensures { need_seen result ≡ text_need place text.now }
{
    match place {
        Place::Field => Need::String(text.bytes()),
        Place::Element => Need::Text(text.bytes()),
    }
}

/// The entry of a constant, which is that of its own kind.
pub fn need_of<'a>(value: &'a Value, place: Place) -> Need<'a>
    ensures { need_seen result ≡ constant_need (text_need place) value.now }
{
    match value {
        Value::Integer(number) => {
            Need::Number(NumberKind::Integer, u64::from(number.cast_unsigned()))
        }
        Value::Long(number) => Need::Number(NumberKind::Long, number.cast_unsigned()),
        Value::Raw32(bits) => Need::Number(NumberKind::Float, u64::from(*bits)),
        Value::Raw64(bits) => Need::Number(NumberKind::Double, *bits),
        Value::Str(text) => need_of_text(text, place),
    }
}
