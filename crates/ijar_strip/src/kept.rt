//! Which classes of a list are kept.
ghost use Rattle.std.specs.Prelude.{◌≡◌, IfOk, map};
ghost use Rattle.std.specs.List.{list_any};
ghost use Rattle.std.specs.Option.{option_map};
ghost use Rattle.class_desc.specs.declared.attribute.Attr.{out-Attr};
ghost use Rattle.class_views.specs.View.{inner_in, listed_in};
ghost use Rattle.class_views.specs.Kept.{is_local as is_local_of, is_kept};
ghost use Rattle.class_views.specs.Kept.{is_own_local as is_own_local_of};
ghost use Rattle.ijar_strip.specs.Links.{link_seen};
ghost use Rattle.ijar_strip.specs.Marks.{class_link as link_of_class};

use crate::links::{Link, staying};
use class_desc::{Attr, ClassDesc, InnerEntry};
use hdr_core::{Memory, Text};
use std::alloc::Global;

/// The name of the class that has no superclass.
const OBJECT: &[u8] = b"java/lang/Object";

fn entries_of(attribute: &Attr) -> Option<&[InnerEntry]>
    ensures { option_map (λ entries. entries.now) result ≡ inner_in (out-Attr attribute.now) }
{
    match attribute {
        Attr::InnerClasses(entries) => Some(entries.items()),
        _ => None,
    }
}

/// The first InnerClasses (JVMS 4.7.6).
fn first_entries(attributes: &[Attr]) -> &[InnerEntry]
    ensures { result.now ≡ listed_in inner_in attributes.now }
{
    for attribute in attributes {
        match entries_of(attribute) {
            Some(entries) => return entries,
            None => {}
        }
    }
    &[]
}

/// An entry for the class of this name, and that one has no outer class.
fn is_own_local(entry: &InnerEntry, name: &Text) -> bool
    ensures { result ≡ is_own_local_of name.now entry.now }
{
    entry.outer.is_none() && entry.inner == *name
}

/// A local or an anonymous class.
fn is_local(desc: &ClassDesc) -> bool
    ensures { result ≡ is_local_of desc.now }
{
    desc.name.bytes() != OBJECT && has_own_local(first_entries(desc.attrs.items()), &desc.name)
}

fn has_own_local(entries: &[InnerEntry], name: &Text) -> bool
    ensures { result ≡ list_any (is_own_local_of name.now) entries.now }
{
    for entry in entries {
        if is_own_local(entry, name) {
            return true;
        }
    }
    false
}

fn has_local(list: &[ClassDesc]) -> bool
    ensures { result ≡ list_any is_local_of list.now }
{
    for desc in list {
        if is_local(desc) {
            return true;
        }
    }
    false
}

fn class_links(alloc: Global, list: &[ClassDesc]) -> Result<Vec<Link<'_>>, Memory>
    ensures { IfOk result (λ links. map link_seen links.items ≡ map link_of_class list.now) }
{
    let mut links = Vec::with_capacity(alloc, list.len())?;
    for desc in list {
        links.push(Link {
            begins: !is_local(desc),
            name: desc.name.bytes(),
            first: &desc.super_name,
            others: desc.interfaces.items(),
        })?;
    }
    Ok(links)
}

/// A mark for each class that is kept. Where no class is local nothing is searched.
pub fn kept_marks(alloc: Global, list: &[ClassDesc]) -> Result<Vec<bool>, Memory>
    ensures { IfOk result (λ marks. marks.items ≡ map (is_kept list.now) list.now) }
{
    if !has_local(list) {
        return Ok(Vec::from_elem(alloc, true, list.len())?);
    }
    let links = class_links(alloc, list)?;
    staying(alloc, &links)
}
