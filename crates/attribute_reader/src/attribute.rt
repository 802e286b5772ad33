//! Attributes (JVMS 4.7): those that a description keeps are read, the others passed over.
ghost use Rattle.std.specs.Prelude.{◌≡◌, [], ◌++◌, map, OnOk};
ghost use Rattle.std.specs.List.{cons_option, list_any};
ghost use Rattle.java_names.specs.Names.{is_text};
ghost use Rattle.class_desc.specs.Places.{attribute_name as attribute_name_of};
ghost use Rattle.pool_reader.specs.Reading.{Gives, Answers, within, times};
ghost use Rattle.attribute_reader.specs.Items.{counted_at, growing};
ghost use Rattle.attribute_reader.specs.Attributes.{unseen, passed_body_at};
ghost use Rattle.attribute_reader.specs.Attributes.{body_of as body_at_of, record_at};
ghost use Rattle.attribute_reader.specs.Attributes.{component_at, component_of};
ghost use Rattle.attribute_reader.specs.Attributes.{attribute_at, attributes_at};

use crate::bodies::inner_classes;
use crate::constants::{ConstantPlace, constant};
use crate::forms::{Form, attribute_name};
use crate::lists::{class_names, counted, for_parameters};
use crate::values::top_value;
use class_desc::{Attr, AttributeKind, ComponentDesc, ConstantKind, Place};
use hdr_core::{List, Memory};
use pool_reader::{ClassKind, Pool, ReadErr, Reader};
use std::alloc::Global;

/// The least bytes of a component: name, descriptor and a count of attributes.
const LEAST_COMPONENT: usize = 6;

/// Whether one of these has the name.
fn is_named(before: &[Attr], name: &[u8]) -> bool
    ensures { result ≡ list_any (λ attr. is_text name.now (attribute_name_of attr)) before.now }
{
    before.iter().any(|attr| name == attr.name())
}

/// That none of these has the name, which stands at this offset.
fn check_new(before: &[Attr], at: u32, name: &[u8]) -> Result<(), ReadErr>
    ensures { Answers (λ _. tt) result (unseen at name.now (map attribute_name_of before.now)) }
{
    if is_named(before, name) {
        return Err(ClassKind::F9.at(at));
    }
    Ok(())
}

/// Passes over the length and the body of an attribute.
#[tactic(auto, unfolding(crate::specs::Attributes::passed_body_at))]
fn pass_body(reader: &mut Reader<'_>) -> Result<(), ReadErr>
    ensures { Gives (λ _. tt) result reader.new (passed_body_at reader.old) }
{
    let count = reader.u32()?;
    reader.piece(count as usize)?;
    Ok(())
}

/// The attributes that are kept, their count first. At a field the descriptor is the field's.
#[cycle(attributes)]
#[tactic(auto, unfolding(crate::specs::Attributes::attributes_over))]
pub fn attributes(
    reader: &mut Reader<'_>,
    alloc: Global,
    pool: &Pool<'_>,
    place: Place,
    descriptor: &[u8],
) -> Result<List<Attr>, ReadErr>
    ensures { Gives (λ attrs. attrs) result reader.new
        (attributes_at pool.now place descriptor.now reader.old) }
{
    let count = reader.u16()?;
    attribute_list(reader, alloc, pool, place, descriptor, count)
}

/// Adds what is kept, if anything is.
fn add_some(attrs: &mut Vec<Attr>, attr: Option<Attr>) -> Result<(), Memory>
    ensures { OnOk result (attrs.new.items ≡ attrs.old.items ++ cons_option attr []) }
{
    if let Some(attr) = attr {
        attrs.push(attr)?;
    }
    Ok(())
}

/// Of as many attributes as that those that are kept.
#[cycle(attributes)]
fn attribute_list(
    reader: &mut Reader<'_>,
    alloc: Global,
    pool: &Pool<'_>,
    place: Place,
    descriptor: &[u8],
    count: u16,
) -> Result<List<Attr>, ReadErr>
    ensures { Gives (λ attrs. attrs) result reader.new
        (growing (attribute_at pool.now (component_of pool.now place) place descriptor.now) []
        count reader.old) }
{
    let mut attrs = Vec::new(alloc);
    for _ in 0..count {
        let next = attribute(reader, alloc, pool, place, descriptor, &attrs)?;
        add_some(&mut attrs, next)?;
    }
    Ok(List::of(attrs))
}

/// An attribute behind those that were kept before, if this one is kept.
#[cycle(attributes)]
#[tactic(auto, unfolding(crate::specs::Attributes::attribute_at))]
fn attribute(
    reader: &mut Reader<'_>,
    alloc: Global,
    pool: &Pool<'_>,
    place: Place,
    descriptor: &[u8],
    before: &[Attr],
) -> Result<Option<Attr>, ReadErr>
    ensures { Gives (λ attr. cons_option attr []) result reader.new
        (attribute_at pool.now (component_of pool.now place) place descriptor.now before.now
        reader.old) }
{
    let at = reader.offset();
    let name = attribute_name(reader, pool)?;
    match place.kept(name) {
        None => {
            pass_body(reader)?;
            Ok(None)
        }
        Some(kind) => {
            check_new(before, at, name)?;
            Ok(Some(kept(reader, alloc, pool, place, descriptor, kind)?))
        }
    }
}

/// What stands behind the name of an attribute that is kept.
#[cycle(attributes)]
fn kept(
    reader: &mut Reader<'_>,
    alloc: Global,
    pool: &Pool<'_>,
    place: Place,
    descriptor: &[u8],
    kind: AttributeKind,
) -> Result<Attr, ReadErr>
    ensures { Gives (λ attr. attr) result reader.new
        (within (body_at_of pool.now (component_of pool.now place) place descriptor.now kind)
        reader.old) }
{
    let mut body = reader.body()?;
    let attr = body_of(&mut body, alloc, pool, place, descriptor, kind)?;
    reader.leave(&body)?;
    Ok(attr)
}

/// The body of an attribute of this kind.
#[cycle(attributes)]
fn body_of(
    body: &mut Reader<'_>,
    alloc: Global,
    pool: &Pool<'_>,
    place: Place,
    descriptor: &[u8],
    kind: AttributeKind,
) -> Result<Attr, ReadErr>
    ensures { Gives (λ attr. attr) result body.new
        (body_at_of pool.now (component_of pool.now place) place descriptor.now kind body.old) }
{
    match kind {
        AttributeKind::ConstantValue => {
            let kind = ConstantKind::of_field(descriptor);
            let value = constant(body, alloc, pool, ConstantPlace::Field, kind)?;
            Ok(Attr::ConstantValue(value))
        }
        AttributeKind::Exceptions => Ok(Attr::Exceptions(class_names(body, alloc, pool)?)),
        AttributeKind::Signature => {
            Ok(Attr::Signature(Form::Signature(place).copy(body, alloc, pool)?))
        }
        AttributeKind::Deprecated => Ok(Attr::Deprecated),
        AttributeKind::Synthetic => Ok(Attr::Synthetic),
        AttributeKind::InnerClasses => Ok(Attr::InnerClasses(inner_classes(body, alloc, pool)?)),
        AttributeKind::Record => Ok(Attr::Components(record(body, alloc, pool, place)?)),
        AttributeKind::PermittedSubclasses => {
            Ok(Attr::PermittedSubclasses(class_names(body, alloc, pool)?))
        }
        AttributeKind::AnnotationDefault => {
            Ok(Attr::AnnotationDefault(top_value(body, alloc, pool)?))
        }
        AttributeKind::MethodParameters => {
            Ok(Attr::MethodParameters(for_parameters(body, alloc, pool)?))
        }
        AttributeKind::VisibleAnnotations => Ok(Attr::VisibleAnns(counted(body, alloc, pool)?)),
        AttributeKind::InvisibleAnnotations => {
            Ok(Attr::InvisibleAnns(counted(body, alloc, pool)?))
        }
        AttributeKind::VisibleParameterAnnotations => {
            Ok(Attr::VisibleParamAnns(for_parameters(body, alloc, pool)?))
        }
        AttributeKind::InvisibleParameterAnnotations => {
            Ok(Attr::InvisibleParamAnns(for_parameters(body, alloc, pool)?))
        }
    }
}

/// The components of a class. No other place keeps a Record.
#[cycle(attributes)]
#[tactic(auto, unfolding(crate::specs::Attributes::record_at))]
fn record(
    body: &mut Reader<'_>,
    alloc: Global,
    pool: &Pool<'_>,
    place: Place,
) -> Result<List<ComponentDesc>, ReadErr>
    ensures { Gives (λ components. components) result body.new
        (record_at (component_of pool.now place) place body.old) }
{
    match place {
        Place::Class => components(body, alloc, pool),
        Place::Field | Place::Method | Place::Component => { Err(ClassKind::F5.at(body.offset())) }
    }
}

/// The components, their count first.
#[cycle(attributes)]
#[tactic(auto, unfolding(crate::specs::Items::counted_at))]
fn components(
    body: &mut Reader<'_>,
    alloc: Global,
    pool: &Pool<'_>,
) -> Result<List<ComponentDesc>, ReadErr>
    ensures { Gives (λ components. components) result body.new
        (counted_at (component_at pool.now) body.old) }
{
    let count = body.u16()?;
    component_list(body, alloc, pool, count)
}

/// As many components as that.
#[cycle(attributes)]
fn component_list(
    body: &mut Reader<'_>,
    alloc: Global,
    pool: &Pool<'_>,
    count: u16,
) -> Result<List<ComponentDesc>, ReadErr>
    ensures { Gives (λ components. components) result body.new
        (times (component_at pool.now) count body.old) }
{
    let most = body.len() / LEAST_COMPONENT;
    let mut components = Vec::with_capacity(alloc, usize::from(count).min(most))?;
    for _ in 0..count {
        let next = component(body, alloc, pool)?;
        components.push(next)?;
    }
    Ok(List::of(components))
}

#[cycle(attributes)]
#[tactic(auto, unfolding(crate::specs::Attributes::component_at))]
fn component(
    body: &mut Reader<'_>,
    alloc: Global,
    pool: &Pool<'_>,
) -> Result<ComponentDesc, ReadErr>
    ensures { Gives (λ component. component) result body.new (component_at pool.now body.old) }
{
    let name = Form::FieldName.copy(body, alloc, pool)?;
    let descriptor = Form::FieldDescriptor.copy(body, alloc, pool)?;
    let attrs = attributes(body, alloc, pool, Place::Component, descriptor.bytes())?;
    Ok(ComponentDesc {
        name,
        descriptor,
        attrs,
    })
}
