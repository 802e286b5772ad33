//! Which members stay.
ghost use Rattle.std.specs.Prelude.{◌≡◌, IfOk, map};
ghost use Rattle.class_views.specs.Flags.{is_private as is_private_of};
ghost use Rattle.class_views.specs.Strip.{stays_field as stays_field_of};
ghost use Rattle.class_views.specs.Strip.{stays_method as stays_method_of};

use class_desc::{FieldDesc, MethodDesc};
use hdr_core::Memory;
use std::alloc::Global;

/// ACC_PRIVATE (JVMS tables 4.5-A, 4.6-A).
const PRIVATE: u16 = 0x0002;

fn is_private(flags: u16) -> bool
    ensures { result ≡ is_private_of flags }
{
    flags & PRIVATE != 0
}

/// A field that isn't private.
pub fn stays_field(field: &FieldDesc) -> bool
    ensures { result ≡ stays_field_of field.now }
{
    !is_private(field.flags)
}

/// A method that isn't private and no class initialiser, which is known by its name alone.
pub fn stays_method(method: &MethodDesc) -> bool
    ensures { result ≡ stays_method_of method.now }
{
    !is_private(method.flags) && method.name.bytes() != b"<clinit>".as_slice()
}

/// A mark for each field that stays.
pub fn field_marks(alloc: Global, fields: &[FieldDesc]) -> Result<Vec<bool>, Memory>
    ensures { IfOk result (λ marks. marks.items ≡ map stays_field_of fields.now) }
{
    let mut marks = Vec::with_capacity(alloc, fields.len())?;
    for field in fields {
        marks.push(stays_field(field))?;
    }
    Ok(marks)
}

/// A mark for each method that stays.
pub fn method_marks(alloc: Global, methods: &[MethodDesc]) -> Result<Vec<bool>, Memory>
    ensures { IfOk result (λ marks. marks.items ≡ map stays_method_of methods.now) }
{
    let mut marks = Vec::with_capacity(alloc, methods.len())?;
    for method in methods {
        marks.push(stays_method(method))?;
    }
    Ok(marks)
}
