//! What stripping leaves.
use crate::words::{add_word, both};
use class_desc::{Attr, ClassDesc};
use ijar_strip::{into_all_stripped, into_stripped, strip, strip_all};
use rows::RowErr;
use std::alloc::Global;

fn add_attribute(told: &mut Vec<u8>, attribute: &Attr) -> Result<(), RowErr> {
    match attribute {
        Attr::InnerClasses(entries) => {
            add_word(told, b"inner")?;
            for entry in entries.items() {
                add_word(told, entry.inner.bytes())?;
            }
            Ok(())
        }
        Attr::Signature(_) => add_word(told, b"signature"),
        Attr::PermittedSubclasses(_) => add_word(told, b"permits"),
        _ => add_word(told, b"other"),
    }
}

/// The class's name, the names of its members, and its attributes, an InnerClasses with the
/// classes of its entries.
fn add_class(told: &mut Vec<u8>, class: &ClassDesc) -> Result<(), RowErr> {
    add_word(told, class.name.bytes())?;
    for field in class.fields.items() {
        add_word(told, field.name.bytes())?;
    }
    for method in class.methods.items() {
        add_word(told, method.name.bytes())?;
    }
    for attribute in class.attrs.items() {
        add_attribute(told, attribute)?;
    }
    Ok(())
}

/// What is left of a class, as a copy and as what it was moved into.
pub fn stripped(alloc: Global, class: ClassDesc) -> Result<Vec<u8>, RowErr> {
    let mut copied = Vec::new(alloc);
    add_class(&mut copied, &strip(alloc, &class)?)?;
    let mut moved = Vec::new(alloc);
    add_class(&mut moved, &into_stripped(alloc, class)?)?;
    both(copied, &moved)
}

fn add_all(told: &mut Vec<u8>, all: &[Option<ClassDesc>]) -> Result<(), RowErr> {
    for (index, class) in all.iter().enumerate() {
        if index > 0 {
            add_word(told, b"|")?;
        }
        match class {
            Some(class) => add_class(told, class)?,
            None => add_word(told, b"none")?,
        }
    }
    Ok(())
}

/// What is left of each class of a list, as copies and as what they were moved into.
pub fn all_stripped(alloc: Global, classes: Vec<ClassDesc>) -> Result<Vec<u8>, RowErr> {
    let mut copied = Vec::new(alloc);
    add_all(&mut copied, &strip_all(alloc, &classes)?)?;
    let mut moved = Vec::new(alloc);
    add_all(&mut moved, &into_all_stripped(alloc, classes)?)?;
    both(copied, &moved)
}
