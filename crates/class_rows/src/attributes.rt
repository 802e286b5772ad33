//! Attributes as words.
use crate::words::{add_name, add_names, add_number, add_word};
use class_desc::{
    AnnDesc, Attr, ClassDesc, ComponentDesc, ElemValue, InnerEntry, ParamEntry, Value,
};
use hdr_core::{List, Text};
use rows::RowErr;
use std::alloc::Global;

/// A number by its bits.
fn add_constant(told: &mut Vec<u8>, value: &Value) -> Result<(), RowErr> {
    match value {
        Value::Integer(bits) => add_number(told, u64::from(bits.cast_unsigned())),
        Value::Long(bits) => add_number(told, bits.cast_unsigned()),
        Value::Raw32(bits) => add_number(told, u64::from(*bits)),
        Value::Raw64(bits) => add_number(told, *bits),
        Value::Str(text) => add_word(told, text.bytes()),
    }
}

#[cycle(annotation)]
fn add_element(told: &mut Vec<u8>, value: &ElemValue) -> Result<(), RowErr> {
    match value {
        ElemValue::Const { tag, value } => {
            add_word(told, &[*tag])?;
            add_constant(told, value)
        }
        ElemValue::Enumerated { descriptor, name } => {
            add_word(told, b"e")?;
            add_word(told, descriptor.bytes())?;
            add_word(told, name.bytes())
        }
        ElemValue::ClassOf(descriptor) => {
            add_word(told, b"c")?;
            add_word(told, descriptor.bytes())
        }
        ElemValue::Nested(nested) => {
            add_word(told, b"@")?;
            add_annotation(told, nested.get())
        }
        ElemValue::List(values) => {
            add_word(told, b"[")?;
            for value in values.items() {
                add_element(told, value)?;
            }
            add_word(told, b"]")
        }
    }
}

#[cycle(annotation)]
fn add_annotation(told: &mut Vec<u8>, annotation: &AnnDesc) -> Result<(), RowErr> {
    add_word(told, annotation.descriptor.bytes())?;
    add_word(told, b"(")?;
    for pair in annotation.elements.items() {
        add_word(told, pair.name.bytes())?;
        add_element(told, &pair.value)?;
    }
    add_word(told, b")")
}

fn add_annotations(told: &mut Vec<u8>, list: &List<AnnDesc>) -> Result<(), RowErr> {
    add_word(told, b"(")?;
    for annotation in list.items() {
        add_annotation(told, annotation)?;
    }
    add_word(told, b")")
}

fn add_formals(told: &mut Vec<u8>, lists: &List<List<AnnDesc>>) -> Result<(), RowErr> {
    add_word(told, b"(")?;
    for list in lists.items() {
        add_annotations(told, list)?;
    }
    add_word(told, b")")
}

fn add_inner(told: &mut Vec<u8>, entries: &List<InnerEntry>) -> Result<(), RowErr> {
    add_word(told, b"(")?;
    for entry in entries.items() {
        add_word(told, entry.inner.bytes())?;
        add_name(told, &entry.outer)?;
        add_name(told, &entry.name)?;
        add_number(told, u64::from(entry.flags))?;
    }
    add_word(told, b")")
}

fn add_parameters(told: &mut Vec<u8>, entries: &List<ParamEntry>) -> Result<(), RowErr> {
    add_word(told, b"(")?;
    for entry in entries.items() {
        add_name(told, &entry.name)?;
        add_number(told, u64::from(entry.flags))?;
    }
    add_word(told, b")")
}

#[cycle(attribute)]
fn add_components(told: &mut Vec<u8>, components: &[ComponentDesc]) -> Result<(), RowErr> {
    add_word(told, b"(")?;
    for component in components {
        add_word(told, component.name.bytes())?;
        add_word(told, component.descriptor.bytes())?;
        for attribute in component.attrs.items() {
            add_attribute(told, attribute)?;
        }
    }
    add_word(told, b")")
}

/// The word of an attribute's kind.
fn kind_of(attribute: &Attr) -> &'static [u8] {
    match attribute {
        Attr::ConstantValue(_) => b"constant",
        Attr::Exceptions(_) => b"exceptions",
        Attr::Signature(_) => b"signature",
        Attr::Deprecated => b"deprecated",
        Attr::Synthetic => b"synthetic",
        Attr::InnerClasses(_) => b"inner",
        Attr::Components(_) => b"record",
        Attr::PermittedSubclasses(_) => b"permitted",
        Attr::AnnotationDefault(_) => b"default",
        Attr::MethodParameters(_) => b"parameters",
        Attr::VisibleAnns(_) => b"visible",
        Attr::InvisibleAnns(_) => b"invisible",
        Attr::VisibleParamAnns(_) => b"visible_formals",
        Attr::InvisibleParamAnns(_) => b"invisible_formals",
    }
}

#[cycle(attribute)]
fn add_attribute(told: &mut Vec<u8>, attribute: &Attr) -> Result<(), RowErr> {
    add_word(told, kind_of(attribute))?;
    match attribute {
        Attr::ConstantValue(value) => add_constant(told, value),
        Attr::Exceptions(names) | Attr::PermittedSubclasses(names) => add_names(told, names),
        Attr::Signature(text) => add_word(told, text.bytes()),
        Attr::Deprecated | Attr::Synthetic => Ok(()),
        Attr::InnerClasses(entries) => add_inner(told, entries),
        Attr::Components(components) => add_components(told, components.items()),
        Attr::AnnotationDefault(value) => add_element(told, value),
        Attr::MethodParameters(entries) => add_parameters(told, entries),
        Attr::VisibleAnns(list) | Attr::InvisibleAnns(list) => add_annotations(told, list),
        Attr::VisibleParamAnns(lists) | Attr::InvisibleParamAnns(lists) => {
            add_formals(told, lists)
        }
    }
}

fn add_all(told: &mut Vec<u8>, attributes: &List<Attr>) -> Result<(), RowErr> {
    for attribute in attributes.items() {
        add_attribute(told, attribute)?;
    }
    Ok(())
}

/// The attributes of the fields, of the methods and of the class.
pub fn attributes_of(alloc: Global, class: &ClassDesc) -> Result<Vec<u8>, RowErr> {
    let mut told = Vec::new(alloc);
    for field in class.fields.items() {
        add_all(&mut told, &field.attrs)?;
    }
    for method in class.methods.items() {
        add_all(&mut told, &method.attrs)?;
    }
    add_all(&mut told, &class.attrs)?;
    Ok(told)
}

fn add_member(
    told: &mut Vec<u8>,
    flags: u16,
    name: &Text,
    descriptor: &Text,
) -> Result<(), RowErr> {
    add_number(told, u64::from(flags))?;
    add_word(told, name.bytes())?;
    add_word(told, descriptor.bytes())
}

/// The flags, the name and the descriptor of each member, with its attributes, and the attributes
/// of the class.
pub fn class_with_attributes(alloc: Global, class: &ClassDesc) -> Result<Vec<u8>, RowErr> {
    let mut told = Vec::new(alloc);
    for field in class.fields.items() {
        add_member(&mut told, field.flags, &field.name, &field.descriptor)?;
        add_all(&mut told, &field.attrs)?;
    }
    for method in class.methods.items() {
        add_member(&mut told, method.flags, &method.name, &method.descriptor)?;
        add_all(&mut told, &method.attrs)?;
    }
    add_all(&mut told, &class.attrs)?;
    Ok(told)
}
