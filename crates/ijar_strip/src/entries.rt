//! Which entries of InnerClasses stay (JVMS 4.7.6).
ghost use Rattle.std.specs.Prelude.{◌≡◌, IfOk, map};
ghost use Rattle.class_views.specs.Strip.{is_listed, is_inside as is_inside_of};
ghost use Rattle.class_views.specs.Strip.{stays_entry, stripped_names as names_of_stripped};
ghost use Rattle.ijar_strip.specs.Links.{link_seen};
ghost use Rattle.ijar_strip.specs.Marks.{entry_link as link_of_entry};
ghost use Rattle.ijar_strip.specs.Marks.{attribute_marks as marks_of_attribute};

use crate::links::{Link, staying};
use crate::names::stripped_names;
use crate::places::Places;
use class_desc::{Attr, ClassDesc, InnerEntry};
use hdr_core::{List, Memory, Text};
use std::alloc::Global;

/// The outer class of the entry is the class of this name.
fn is_inside(entry: &InnerEntry, class: &Text) -> bool
    ensures { result ≡ is_inside_of entry.now class.now }
{
    match &entry.outer {
        Some(outer) => class == outer,
        None => false,
    }
}

fn is_named(names: &Places<'_>, name: &Text) -> bool
    ensures { result ≡ is_listed names.now name.now }
{
    names.last(name.bytes()).is_some()
}

fn entry_link<'a>(names: &Places<'_>, class: &Text, entry: &'a InnerEntry) -> Link<'a>
    ensures { link_seen result ≡ link_of_entry names.now class.now entry.now }
{
    Link {
        begins: is_named(names, &entry.inner) || is_inside(entry, class),
        name: entry.inner.bytes(),
        first: &entry.outer,
        others: &[],
    }
}

fn entry_links<'a>(
    alloc: Global,
    names: &Places<'_>,
    class: &Text,
    entries: &'a [InnerEntry],
) -> Result<Vec<Link<'a>>, Memory>
    ensures { IfOk result (λ links.
        map link_seen links.items ≡ map (link_of_entry names.now class.now) entries.now) }
{
    let mut links = Vec::with_capacity(alloc, entries.len())?;
    for entry in entries {
        links.push(entry_link(names, class, entry))?;
    }
    Ok(links)
}

/// A mark for each entry that stays, where these are the names in the stripped class.
fn entry_marks(
    alloc: Global,
    names: &Places<'_>,
    desc: &ClassDesc,
    entries: &[InnerEntry],
) -> Result<List<bool>, Memory>
    requires { names.now ≡ names_of_stripped desc.now }
    ensures { IfOk result (λ marks. marks ≡ map (stays_entry desc.now entries.now) entries.now) }
{
    let links = entry_links(alloc, names, &desc.name, entries)?;
    Ok(List::of(staying(alloc, &links)?))
}

fn marks_of(
    alloc: Global,
    names: &Places<'_>,
    desc: &ClassDesc,
    attribute: &Attr,
) -> Result<List<bool>, Memory>
    requires { names.now ≡ names_of_stripped desc.now }
    ensures { IfOk result (λ marks. marks ≡ marks_of_attribute desc.now attribute.now) }
{
    match attribute {
        Attr::InnerClasses(entries) => entry_marks(alloc, names, desc, entries.items()),
        _ => Ok(List::of(Vec::new(alloc))),
    }
}

/// For each attribute the marks of its entries, if it is an InnerClasses.
pub fn attribute_marks(alloc: Global, desc: &ClassDesc) -> Result<Vec<List<bool>>, Memory>
    ensures { IfOk result (λ marks.
        marks.items ≡ map (marks_of_attribute desc.now) desc.now.attrs) }
{
    let names = stripped_names(alloc, desc)?;
    let attributes = desc.attrs.items();
    let mut marks = Vec::with_capacity(alloc, attributes.len())?;
    for attribute in attributes {
        marks.push(marks_of(alloc, &names, desc, attribute)?)?;
    }
    Ok(marks)
}
