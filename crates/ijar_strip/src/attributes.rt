//! Attributes with the entries that are marked.
ghost use Rattle.std.specs.Prelude.{◌≡◌, ◌++◌, IfOk, OnOk, map, length};
ghost use Rattle.std.specs.List.{flat_map};
ghost use Rattle.class_desc.specs.declared.class.ClassDesc.{ClassDesc as Described};
ghost use Rattle.class_views.specs.Strip.{inner_classes, strip_attribute};
ghost use Rattle.ijar_strip.specs.Marks.{attribute_marks, entries_of};

use crate::marked::{copy_marked, keep_marked};
use class_desc::{Attr, InnerEntry};
use hdr_core::{List, Memory};
use std::alloc::Global;

/// An InnerClasses of these entries, if there are any.
fn push_entries(left: List<InnerEntry>, out: &mut Vec<Attr>) -> Result<(), Memory>
    ensures { OnOk result (out.new.items ≡ out.old.items ++ inner_classes left) }
{
    if !left.items().is_empty() {
        out.push(Attr::InnerClasses(left))?;
    }
    Ok(())
}

fn push_copy(
    alloc: Global,
    attribute: &Attr,
    marks: &[bool],
    out: &mut Vec<Attr>,
) -> Result<(), Memory>
    requires { length marks.now ≡ length (entries_of attribute.now) }
    ensures { OnOk result ((d : Described) → marks.now ≡ attribute_marks d attribute.now →
        out.new.items ≡ out.old.items ++ strip_attribute d attribute.now) }
{
    match attribute {
        Attr::InnerClasses(entries) => {
            push_entries(copy_marked(alloc, entries.items(), marks)?, out)
        }
        _ => Ok(out.push(attribute.copy(alloc)?)?),
    }
}

/// Copies of what stays of attributes, by the marks of each.
pub fn copy_attributes(
    alloc: Global,
    attributes: &[Attr],
    marks: &[List<bool>],
) -> Result<List<Attr>, Memory>
    requires { map length marks.now ≡ map (λ a. length (entries_of a)) attributes.now }
    ensures { IfOk result (λ attrs.
        (d : Described) → marks.now ≡ map (attribute_marks d) attributes.now →
        attrs ≡ flat_map (strip_attribute d) attributes.now) }
{
    let mut attrs = Vec::new(alloc);
    for (index, attribute) in attributes.iter().enumerate() {
        push_copy(alloc, attribute, marks[index].items(), &mut attrs)?;
    }
    Ok(List::of(attrs))
}

fn push_kept(attribute: Attr, marks: &[bool], out: &mut Vec<Attr>) -> Result<(), Memory>
    requires { length marks.now ≡ length (entries_of attribute) }
    ensures { OnOk result ((d : Described) → marks.now ≡ attribute_marks d attribute →
        out.new.items ≡ out.old.items ++ strip_attribute d attribute) }
{
    match attribute {
        Attr::InnerClasses(entries) => { push_entries(keep_marked(entries, marks), out) }
        other => Ok(out.push(other)?),
    }
}

/// What stays of attributes, by the marks of each.
pub fn keep_attributes(
    alloc: Global,
    attributes: List<Attr>,
    marks: &[List<bool>],
) -> Result<List<Attr>, Memory>
    requires { map length marks.now ≡ map (λ a. length (entries_of a)) attributes }
    ensures { IfOk result (λ attrs.
        (d : Described) → marks.now ≡ map (attribute_marks d) attributes →
        attrs ≡ flat_map (strip_attribute d) attributes) }
{
    let attributes = attributes.into_items();
    let mut attrs = Vec::with_capacity(alloc, attributes.len())?;
    let mut index = 0;
    for attribute in attributes {
        push_kept(attribute, marks[index].items(), &mut attrs)?;
        index += 1;
    }
    Ok(List::of(attrs))
}
