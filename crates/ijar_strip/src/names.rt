//! The names of classes in a stripped class.
ghost use Rattle.std.specs.Prelude.{◌≡◌, ◌++◌, [], IfOk, OnOk};
ghost use Rattle.std.specs.Prelude.{filter, option_to_list, unwrap_or, if◌then◌else◌};
ghost use Rattle.std.specs.List.{flat_map};
ghost use Rattle.class_desc.specs.declared.attribute.Attr.{out-Attr};
ghost use Rattle.class_views.specs.View.{thrown_in, permitted_in};
ghost use Rattle.class_views.specs.Strip.{stays_method as stays_method_of, thrown_names};
ghost use Rattle.class_views.specs.Strip.{permitted_names, stripped_names as names_of_stripped};

use crate::members::stays_method;
use crate::places::Places;
use class_desc::{Attr, ClassDesc, MethodDesc};
use hdr_core::{Memory, Text};
use std::alloc::Global;

fn push_names<'a>(places: &mut Places<'a>, names: &'a [Text]) -> Result<(), Memory>
    ensures { OnOk result (places.new ≡ places.old ++ names.now) }
{
    for name in names {
        places.push(name.bytes())?;
    }
    Ok(())
}

fn push_option<'a>(places: &mut Places<'a>, name: &'a Option<Text>) -> Result<(), Memory>
    ensures { OnOk result (places.new ≡ places.old ++ option_to_list name.now) }
{
    if let Some(name) = name {
        places.push(name.bytes())?;
    }
    Ok(())
}

/// The classes of an Exceptions (JVMS 4.7.5).
fn thrown(attribute: &Attr) -> &[Text]
    ensures { result.now ≡ unwrap_or (thrown_in (out-Attr attribute.now)) [] }
{
    match attribute {
        Attr::Exceptions(names) => names.items(),
        _ => &[],
    }
}

/// The classes of a PermittedSubclasses (JVMS 4.7.31).
fn permitted(attribute: &Attr) -> &[Text]
    ensures { result.now ≡ unwrap_or (permitted_in (out-Attr attribute.now)) [] }
{
    match attribute {
        Attr::PermittedSubclasses(names) => names.items(),
        _ => &[],
    }
}

fn push_thrown<'a>(places: &mut Places<'a>, attributes: &'a [Attr]) -> Result<(), Memory>
    ensures { OnOk result (places.new ≡ places.old ++ flat_map (λ a.
        unwrap_or (thrown_in (out-Attr a)) []) attributes.now) }
{
    for attribute in attributes {
        push_names(places, thrown(attribute))?;
    }
    Ok(())
}

fn push_permitted<'a>(places: &mut Places<'a>, attributes: &'a [Attr]) -> Result<(), Memory>
    ensures { OnOk result (places.new ≡ places.old ++ permitted_names attributes.now) }
{
    for attribute in attributes {
        push_names(places, permitted(attribute))?;
    }
    Ok(())
}

/// What a method throws, if it stays.
fn push_staying<'a>(places: &mut Places<'a>, method: &'a MethodDesc) -> Result<(), Memory>
    ensures { OnOk result (places.new ≡ places.old
        ++ (if stays_method_of method.now then thrown_names method.now else [])) }
{
    if stays_method(method) {
        push_thrown(places, method.attrs.items())?;
    }
    Ok(())
}

fn push_all_staying<'a>(places: &mut Places<'a>, methods: &'a [MethodDesc]) -> Result<(), Memory>
    ensures { OnOk result (places.new ≡ places.old
        ++ flat_map thrown_names (filter stays_method_of methods.now)) }
{
    for method in methods {
        push_staying(places, method)?;
    }
    Ok(())
}

pub fn stripped_names<'a>(alloc: Global, desc: &'a ClassDesc) -> Result<Places<'a>, Memory>
    ensures { IfOk result (λ names. names ≡ names_of_stripped desc.now) }
{
    let mut names = Places::new(alloc);
    names.push(desc.name.bytes())?;
    push_option(&mut names, &desc.super_name)?;
    push_names(&mut names, desc.interfaces.items())?;
    push_all_staying(&mut names, desc.methods.items())?;
    push_permitted(&mut names, desc.attrs.items())?;
    Ok(names)
}
