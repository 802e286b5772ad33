//! The names of a class and its members.
use crate::words::{add_name, add_word};
use class_desc::ClassDesc;
use hdr_core::Text;
use rows::RowErr;
use std::alloc::Global;

fn add_member(told: &mut Vec<u8>, name: &Text, descriptor: &Text) -> Result<(), RowErr> {
    add_word(told, name.bytes())?;
    told.extend_from_slice(b":")?;
    told.extend_from_slice(descriptor.bytes())?;
    Ok(())
}

/// The name, the superclass, the superinterfaces, and each member with its descriptor.
pub fn members_of(alloc: Global, class: &ClassDesc) -> Result<Vec<u8>, RowErr> {
    let mut told = Vec::from_slice(alloc, class.name.bytes())?;
    add_name(&mut told, &class.super_name)?;
    for name in class.interfaces.items() {
        add_word(&mut told, name.bytes())?;
    }
    for field in class.fields.items() {
        add_member(&mut told, &field.name, &field.descriptor)?;
    }
    for method in class.methods.items() {
        add_member(&mut told, &method.name, &method.descriptor)?;
    }
    Ok(told)
}
