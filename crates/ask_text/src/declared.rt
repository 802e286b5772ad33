//! What a class declares: constants, and attributes of its members.
ghost use Rattle.std.specs.Prelude.{◌≡◌, ◌&&◌, map, find, option_map};
ghost use Rattle.class_desc.specs.declared.attribute.Attr.{out-Attr};
ghost use Rattle.class_views.specs.View.{annotations_of, constant_in, first_held, view_of_desc};
ghost use Rattle.java_names.specs.Names.{is_text};
ghost use Rattle.client_view.specs.Replies.{annotations_in, part_seen};

use class_desc::{Attr, ClassDesc, FieldDesc, MethodDesc, Value};
use client_view::Part;
use hdr_core::Text;

fn constant_in_one(attribute: &Attr) -> Option<&Value>
    ensures { option_map (λ value. value.now) result ≡ constant_in (out-Attr attribute.now) }
{
    match attribute {
        Attr::ConstantValue(value) => Some(value),
        _ => None,
    }
}

/// The constant among the attributes of a field (JVMS 4.7.2).
pub fn constant(attributes: &[Attr]) -> Option<&Value>
    ensures { option_map (λ value. value.now) result
        ≡ first_held constant_in (map out-Attr attributes.now) }
{
    for attribute in attributes {
        if let Some(value) = constant_in_one(attribute) {
            return Some(value);
        }
    }
    None
}

/// The attributes of the first field of a name.
fn field_attributes<'a>(fields: &'a [FieldDesc], name: &Text) -> Option<&'a [Attr]>
    ensures { option_map (λ attributes. attributes.now) result
        ≡ option_map (λ f. f.attrs) (find (λ f. is_text f.name name.now) fields.now) }
{
    for field in fields {
        if field.name == *name {
            return Some(field.attrs.items());
        }
    }
    None
}

/// The attributes of the first method of a name and descriptor.
fn method_attributes<'a>(
    methods: &'a [MethodDesc],
    name: &Text,
    descriptor: &Text,
) -> Option<&'a [Attr]>
    ensures { option_map (λ attributes. attributes.now) result
        ≡ option_map (λ m. m.attrs) (find
        (λ m. is_text m.name name.now && is_text m.descriptor descriptor.now) methods.now) }
{
    for method in methods {
        if method.name == *name && method.descriptor == *descriptor {
            return Some(method.attrs.items());
        }
    }
    None
}

/// The attributes of a part of a class, if it declares that.
pub fn attributes<'a>(class: &'a ClassDesc, part: &Part) -> Option<&'a [Attr]>
    ensures { option_map (λ found. annotations_of (map out-Attr found.now)) result
        ≡ annotations_in (view_of_desc class.now) (part_seen part.now) }
{
    match part {
        Part::Whole => Some(class.attrs.items()),
        Part::FieldPart(name) => field_attributes(class.fields.items(), name),
        Part::MethodPart { name, descriptor } => {
            method_attributes(class.methods.items(), name, descriptor)
        }
    }
}
