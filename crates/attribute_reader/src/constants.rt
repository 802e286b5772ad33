//! Constants of fields and of elements (JVMS 4.7.2, 4.7.16.1).
ghost use Rattle.std.specs.Prelude.{◌≡◌, option_map};
ghost use Rattle.class_desc.specs.Texts.{constant_texts};
ghost use Rattle.pool_reader.specs.Pooled.{row_in};
ghost use Rattle.pool_reader.specs.Reading.{Answers, Gives};
ghost use Rattle.pool_reader.specs.Seen.{row_seen, text_seen};
ghost use Rattle.attribute_reader.specs.Items.{number_of_row, string_named, constant_text};
ghost use Rattle.attribute_reader.specs.Items.{constant_checked, constant_at, told_at};

use class_desc::{ConstantKind, NumberKind, Value};
use hdr_core::Text;
use pool_reader::{ClassKind, Pool, PoolEntry, ReadErr, Reader};
use std::alloc::Global;

/// Where a constant stands.
#[derive(Clone, Copy)]
pub enum ConstantPlace {
    /// In a field, whose text is a string (JVMS 4.7.2).
    Field,
    /// In an element, whose text stands there itself (JVMS 4.7.16.1).
    Element,
}

/// The text of the string of this number.
fn string<'a>(pool: &Pool<'a>, number: u16) -> Result<&'a [u8], ClassKind>
    ensures { text_seen result ≡ string_named pool.now number }
{
    match pool.entry(number) {
        Some(PoolEntry::Str(text)) => pool.text(text),
        _ => Err(ClassKind::F5),
    }
}

/// The text of a constant of this number.
fn text_of<'a>(pool: &Pool<'a>, place: ConstantPlace, number: u16) -> Result<&'a [u8], ClassKind>
    ensures { text_seen result ≡ constant_text place pool.now number }
{
    match place {
        ConstantPlace::Field => string(pool, number),
        ConstantPlace::Element => pool.text(number),
    }
}

/// The number that an entry is, if it is one of this kind.
fn number_of(kind: NumberKind, entry: Option<PoolEntry<'_>>) -> Result<Value, ClassKind>
    ensures { result ≡ number_of_row kind (option_map row_seen entry.entry) }
{
    match (kind, entry) {
        (NumberKind::Integer, Some(PoolEntry::Integer(bits))) => {
            Ok(Value::Integer(bits.cast_signed()))
        }
        (NumberKind::Float, Some(PoolEntry::Float(bits))) => Ok(Value::Raw32(bits)),
        (NumberKind::Long, Some(PoolEntry::Long(bits))) => Ok(Value::Long(bits.cast_signed())),
        (NumberKind::Double, Some(PoolEntry::Double(bits))) => Ok(Value::Raw64(bits)),
        _ => Err(ClassKind::F5),
    }
}

fn told(at: u32, value: Result<Value, ClassKind>) -> Result<Value, ReadErr>
    ensures { Answers (λ value. value) result (told_at at value) }
{
    match value {
        Ok(value) => Ok(value),
        Err(kind) => Err(kind.at(at)),
    }
}

/// The constant of this number, which stands at this offset.
fn constant_of(
    alloc: Global,
    pool: &Pool<'_>,
    place: ConstantPlace,
    kind: Option<ConstantKind>,
    at: u32,
    number: u16,
) -> Result<Value, ReadErr>
    ensures { Answers (λ value. value) result
        (constant_checked place pool.now kind at number) }
{
    match kind {
        None => Err(ClassKind::F5.at(at)),
        Some(ConstantKind::Number(kind)) => told(at, number_of(kind, pool.entry(number))),
        Some(ConstantKind::Text) => match text_of(pool, place, number) {
            Ok(text) => Ok(Value::Str(Text::of(alloc, text)?)),
            Err(kind) => Err(kind.at(at)),
        },
    }
}

/// How many bytes the text of a constant has.
fn text_len(value: &Value) -> usize
    ensures { result ≡ constant_texts value.now }
{
    match value {
        Value::Str(text) => text.bytes().len(),
        Value::Integer(_) | Value::Long(_) | Value::Raw32(_) | Value::Raw64(_) => 0,
    }
}

/// The number of a constant of this kind, if there is one.
#[tactic(auto, unfolding(crate::specs::Items::numbered_at))]
pub fn constant(
    reader: &mut Reader<'_>,
    alloc: Global,
    pool: &Pool<'_>,
    place: ConstantPlace,
    kind: Option<ConstantKind>,
) -> Result<Value, ReadErr>
    ensures { Gives (λ value. value) result reader.new
        (constant_at place pool.now kind reader.old) }
{
    let at = reader.offset();
    let number = reader.u16()?;
    let value = constant_of(alloc, pool, place, kind, at, number)?;
    reader.spend(at, text_len(&value))?;
    Ok(value)
}
