//! Values of elements, and annotations (JVMS 4.7.16, 4.7.16.1).
ghost use Rattle.std.specs.Prelude.{◌≡◌, if◌then◌else◌};
ghost use Rattle.pool_reader.specs.declared.fault.ClassKind.TheVariants.{F7, F12};
ghost use Rattle.pool_reader.specs.declared.fault.ReadErr.TheVariants.{Fault};
ghost use Rattle.pool_reader.specs.Reading.{Gives, fault_at, times};
ghost use Rattle.attribute_reader.specs.Items.{counted_at};
ghost use Rattle.attribute_reader.specs.Values.{is_tag as is_tag_of, enumerated_at};
ghost use Rattle.attribute_reader.specs.Values.{class_value_at, constant_value_at, nested_at};
ghost use Rattle.attribute_reader.specs.Values.{list_at, behind_tag as behind_tag_of, value_at};
ghost use Rattle.attribute_reader.specs.Values.{element_at, annotation_over, annotation_at};
ghost use Rattle.attribute_reader.specs.Values.{top_value_at, annotations_at};

use crate::constants::{ConstantPlace, constant};
use crate::forms::Form;
use crate::lists::{FromReader, counted};
use class_desc::{AnnDesc, ConstantKind, DEEPEST_VALUE, ElemPair, ElemValue, element_tag};
use hdr_core::List;
use pool_reader::{ClassKind, Pool, ReadErr, Reader};
use sqlite_items::Boxed;
use std::alloc::Global;

/// The least bytes of a value in a file: a tag and a number.
const LEAST_VALUE: usize = 3;

/// The least bytes of an element: its name and its value.
const LEAST_ELEMENT: usize = 5;

/// A constant of an enum, behind its tag.
#[tactic(auto, unfolding(crate::specs::Values::enumerated_at))]
fn enumerated_value(
    reader: &mut Reader<'_>,
    alloc: Global,
    pool: &Pool<'_>,
) -> Result<ElemValue, ReadErr>
    ensures { Gives (λ value. value) result reader.new (enumerated_at pool.now reader.old) }
{
    let descriptor = Form::FieldDescriptor.copy(reader, alloc, pool)?;
    let name = Form::AnyText.copy(reader, alloc, pool)?;
    Ok(ElemValue::Enumerated { descriptor, name })
}

/// A class, behind its tag.
#[tactic(auto, unfolding(crate::specs::Values::class_value_at))]
fn class_value(
    reader: &mut Reader<'_>,
    alloc: Global,
    pool: &Pool<'_>,
) -> Result<ElemValue, ReadErr>
    ensures { Gives (λ value. value) result reader.new (class_value_at pool.now reader.old) }
{
    let descriptor = Form::ReturnDescriptor.copy(reader, alloc, pool)?;
    Ok(ElemValue::ClassOf(descriptor))
}

/// A constant, behind its tag, which stands at this offset.
#[tactic(auto, unfolding(crate::specs::Values::constant_value_at))]
fn constant_value(
    reader: &mut Reader<'_>,
    alloc: Global,
    pool: &Pool<'_>,
    kind: Option<ConstantKind>,
    tag: u8,
    tag_at: u32,
) -> Result<ElemValue, ReadErr>
    ensures { Gives (λ value. value) result reader.new
        (constant_value_at pool.now kind tag tag_at reader.old) }
{
    if kind.is_none() {
        return Err(ClassKind::F7.at(tag_at));
    }
    let value = constant(reader, alloc, pool, ConstantPlace::Element, kind)?;
    Ok(ElemValue::Const { tag, value })
}

/// Whether it is the tag of a value.
fn is_tag(tag: u8) -> bool
    ensures { result ≡ is_tag_of tag }
{
    match tag {
        element_tag::ENUMERATED
        | element_tag::CLASS
        | element_tag::ANNOTATION
        | element_tag::LIST => true,
        _ => ConstantKind::of_element(tag).is_some(),
    }
}

/// What is told of a tag whose value stands too deep.
fn too_deep(tag: u8, at: u32) -> ReadErr
    ensures { result ≡ Fault (fault_at at (if is_tag_of tag then F12 else F7)) }
{
    if is_tag(tag) {
        ClassKind::F12.at(at)
    } else {
        ClassKind::F7.at(at)
    }
}

/// A value, nested at most as deep as `left`.
#[cycle(values)]
#[tactic(auto, unfolding(crate::specs::Values::value_at))]
fn value(
    reader: &mut Reader<'_>,
    alloc: Global,
    pool: &Pool<'_>,
    left: u32,
) -> Result<ElemValue, ReadErr>
    ensures { Gives (λ value. value) result reader.new (value_at pool.now left reader.old) }
{
    let tag_at = reader.offset();
    let tag = reader.u8()?;
    if left == 0 {
        return Err(too_deep(tag, tag_at));
    }
    behind_tag(reader, alloc, pool, left - 1, tag, tag_at)
}

/// What stands behind a tag. The values in it are nested at most as deep as `left`.
#[cycle(values)]
#[tactic(auto, unfolding(crate::specs::Values::behind_tag))]
fn behind_tag(
    reader: &mut Reader<'_>,
    alloc: Global,
    pool: &Pool<'_>,
    left: u32,
    tag: u8,
    tag_at: u32,
) -> Result<ElemValue, ReadErr>
    ensures { Gives (λ value. value) result reader.new
        (behind_tag_of pool.now (value_at pool.now left) tag tag_at reader.old) }
{
    match tag {
        element_tag::ENUMERATED => enumerated_value(reader, alloc, pool),
        element_tag::CLASS => class_value(reader, alloc, pool),
        element_tag::ANNOTATION => nested(reader, alloc, pool, left),
        element_tag::LIST => list(reader, alloc, pool, left),
        _ => {
            let kind = ConstantKind::of_element(tag);
            constant_value(reader, alloc, pool, kind, tag, tag_at)
        }
    }
}

#[cycle(values)]
#[tactic(auto, unfolding(crate::specs::Values::nested_at))]
fn nested(
    reader: &mut Reader<'_>,
    alloc: Global,
    pool: &Pool<'_>,
    left: u32,
) -> Result<ElemValue, ReadErr>
    ensures { Gives (λ value. value) result reader.new
        (nested_at pool.now (value_at pool.now left) reader.old) }
{
    let annotation = annotation_with(reader, alloc, pool, left)?;
    Ok(ElemValue::Nested(Boxed::new(alloc, annotation)?))
}

#[cycle(values)]
#[tactic(auto, unfolding(crate::specs::Values::list_at))]
fn list(
    reader: &mut Reader<'_>,
    alloc: Global,
    pool: &Pool<'_>,
    left: u32,
) -> Result<ElemValue, ReadErr>
    ensures { Gives (λ value. value) result reader.new
        (list_at (value_at pool.now left) reader.old) }
{
    Ok(ElemValue::List(counted_values(reader, alloc, pool, left)?))
}

#[cycle(values)]
#[tactic(auto, unfolding(crate::specs::Items::counted_at))]
fn counted_values(
    reader: &mut Reader<'_>,
    alloc: Global,
    pool: &Pool<'_>,
    left: u32,
) -> Result<List<ElemValue>, ReadErr>
    ensures { Gives (λ values. values) result reader.new
        (counted_at (value_at pool.now left) reader.old) }
{
    let count = reader.u16()?;
    values(reader, alloc, pool, left, count)
}

#[cycle(values)]
fn values(
    reader: &mut Reader<'_>,
    alloc: Global,
    pool: &Pool<'_>,
    left: u32,
    count: u16,
) -> Result<List<ElemValue>, ReadErr>
    ensures { Gives (λ values. values) result reader.new
        (times (value_at pool.now left) count reader.old) }
{
    let most = reader.len() / LEAST_VALUE;
    let mut values = Vec::with_capacity(alloc, usize::from(count).min(most))?;
    for _ in 0..count {
        let next = value(reader, alloc, pool, left)?;
        values.push(next)?;
    }
    Ok(List::of(values))
}

/// An annotation, of whose elements the values are nested at most as deep as `left`.
#[cycle(values)]
#[tactic(auto, unfolding(crate::specs::Values::annotation_over))]
fn annotation_with(
    reader: &mut Reader<'_>,
    alloc: Global,
    pool: &Pool<'_>,
    left: u32,
) -> Result<AnnDesc, ReadErr>
    ensures { Gives (λ annotation. annotation) result reader.new
        (annotation_over pool.now (value_at pool.now left) reader.old) }
{
    let descriptor = Form::FieldDescriptor.copy(reader, alloc, pool)?;
    let elements = counted_elements(reader, alloc, pool, left)?;
    Ok(AnnDesc {
        descriptor,
        elements,
    })
}

#[cycle(values)]
#[tactic(auto, unfolding(crate::specs::Items::counted_at))]
fn counted_elements(
    reader: &mut Reader<'_>,
    alloc: Global,
    pool: &Pool<'_>,
    left: u32,
) -> Result<List<ElemPair>, ReadErr>
    ensures { Gives (λ elements. elements) result reader.new
        (counted_at (element_at pool.now (value_at pool.now left)) reader.old) }
{
    let count = reader.u16()?;
    elements(reader, alloc, pool, left, count)
}

#[cycle(values)]
fn elements(
    reader: &mut Reader<'_>,
    alloc: Global,
    pool: &Pool<'_>,
    left: u32,
    count: u16,
) -> Result<List<ElemPair>, ReadErr>
    ensures { Gives (λ elements. elements) result reader.new
        (times (element_at pool.now (value_at pool.now left)) count reader.old) }
{
    let most = reader.len() / LEAST_ELEMENT;
    let mut elements = Vec::with_capacity(alloc, usize::from(count).min(most))?;
    for _ in 0..count {
        let next = element(reader, alloc, pool, left)?;
        elements.push(next)?;
    }
    Ok(List::of(elements))
}

#[cycle(values)]
#[tactic(auto, unfolding(crate::specs::Values::element_at))]
fn element(
    reader: &mut Reader<'_>,
    alloc: Global,
    pool: &Pool<'_>,
    left: u32,
) -> Result<ElemPair, ReadErr>
    ensures { Gives (λ element. element) result reader.new
        (element_at pool.now (value_at pool.now left) reader.old) }
{
    let name = Form::AnyText.copy(reader, alloc, pool)?;
    let value = value(reader, alloc, pool, left)?;
    Ok(ElemPair { name, value })
}

/// A value that stands in no other.
pub fn top_value(
    reader: &mut Reader<'_>,
    alloc: Global,
    pool: &Pool<'_>,
) -> Result<ElemValue, ReadErr>
    ensures { Gives (λ value. value) result reader.new (top_value_at pool.now reader.old) }
{
    value(reader, alloc, pool, DEEPEST_VALUE)
}

/// An annotation that stands in no value.
impl FromReader for AnnDesc {
    ghost read_at = { annotation_at };

    fn read(reader: &mut Reader<'_>, alloc: Global, pool: &Pool<'_>) -> Result<AnnDesc, ReadErr> {
        annotation_with(reader, alloc, pool, DEEPEST_VALUE)
    }
}

/// The annotations of a parameter.
impl FromReader for List<AnnDesc> {
    ghost read_at = { annotations_at };

    fn read(
        reader: &mut Reader<'_>,
        alloc: Global,
        pool: &Pool<'_>,
    ) -> Result<List<AnnDesc>, ReadErr> {
        counted::<AnnDesc>(reader, alloc, pool)
    }
}
