ghost use Rattle.std.specs.Prelude.{◌≡◌, IfOk, Some, None, if◌then◌else◌};
ghost use Rattle.std.specs.List.{AllByRecursion};
ghost use Rattle.class_views.specs.Strip.{strip_class, HasOneInnerClasses};
ghost use Rattle.class_views.specs.Kept.{strip_each};
ghost use Rattle.projection.specs.Written.{left_in, KeepsAnswers};

use crate::attributes::{copy_attributes, keep_attributes};
use crate::entries::attribute_marks;
use crate::kept::kept_marks;
use crate::marked::{copy_marked, keep_marked};
use crate::members::{field_marks, method_marks};
use class_desc::ClassDesc;
use hdr_core::{Memory, TryCopy};
use std::alloc::Global;

/// The class as its clients see it: without private fields, private methods and the class
/// initialiser, which goes by its name alone; of each InnerClasses (JVMS 4.7.6) with the entries
/// for classes that the stripped class names, for its own members, and for what encloses these.
pub fn strip(alloc: Global, desc: &ClassDesc) -> Result<ClassDesc, Memory>
    ensures { IfOk result (λ stripped. stripped ≡ strip_class desc.now) }
{
    let fields = desc.fields.items();
    let methods = desc.methods.items();
    let attributes = attribute_marks(alloc, desc)?;
    Ok(ClassDesc {
        minor: desc.minor,
        major: desc.major,
        flags: desc.flags,
        name: desc.name.copy(alloc)?,
        super_name: desc.super_name.try_copy(alloc)?,
        interfaces: desc.interfaces.copy(alloc)?,
        fields: copy_marked(alloc, fields, &field_marks(alloc, fields)?)?,
        methods: copy_marked(alloc, methods, &method_marks(alloc, methods)?)?,
        attrs: copy_attributes(alloc, desc.attrs.items(), &attributes)?,
    })
}

/// What [`strip`] gives, from a class that is taken apart: lists are filtered in place, and no
/// text is copied.
pub fn into_stripped(alloc: Global, desc: ClassDesc) -> Result<ClassDesc, Memory>
    ensures { IfOk result (λ stripped. stripped ≡ strip_class desc) }
{
    let fields = field_marks(alloc, desc.fields.items())?;
    let methods = method_marks(alloc, desc.methods.items())?;
    let attributes = attribute_marks(alloc, &desc)?;
    let attrs = keep_attributes(alloc, desc.attrs, &attributes)?;
    Ok(ClassDesc {
        minor: desc.minor,
        major: desc.major,
        flags: desc.flags,
        name: desc.name,
        super_name: desc.super_name,
        interfaces: desc.interfaces,
        fields: keep_marked(desc.fields, &fields),
        methods: keep_marked(desc.methods, &methods),
        attrs,
    })
}

fn copied_class(alloc: Global, desc: &ClassDesc, kept: bool) -> Result<Option<ClassDesc>, Memory>
    ensures { IfOk result (λ class.
        class ≡ (if kept then Some (strip_class desc.now) else None)) }
{
    if kept {
        Ok(Some(strip(alloc, desc)?))
    } else {
        Ok(None)
    }
}

fn kept_class(alloc: Global, desc: ClassDesc, kept: bool) -> Result<Option<ClassDesc>, Memory>
    ensures { IfOk result (λ class. class ≡ (if kept then Some (strip_class desc) else None)) }
{
    if kept {
        Ok(Some(into_stripped(alloc, desc)?))
    } else {
        Ok(None)
    }
}

/// The classes of a list that are kept, stripped, each in its place: all but the local and
/// anonymous ones, and of these the ones that a kept class names as superclass or superinterface.
/// What clients find in the list they find in what is left of it.
pub fn strip_all(alloc: Global, list: &[ClassDesc]) -> Result<Vec<Option<ClassDesc>>, Memory>
    ensures each { IfOk result (λ all. all.items ≡ strip_each list.now) }
    ensures answers { IfOk result (λ all. AllByRecursion HasOneInnerClasses list.now →
        KeepsAnswers list.now (left_in all.items)) }
{
    let marks = kept_marks(alloc, list)?;
    let mut all = Vec::with_capacity(alloc, list.len())?;
    for (index, desc) in list.iter().enumerate() {
        all.push(copied_class(alloc, desc, marks[index])?)?;
    }
    Ok(all)
}

/// What [`strip_all`] gives, from classes that are taken apart.
pub fn into_all_stripped(
    alloc: Global,
    list: Vec<ClassDesc>,
) -> Result<Vec<Option<ClassDesc>>, Memory>
    ensures each { IfOk result (λ all. all.items ≡ strip_each list.items) }
    ensures answers { IfOk result (λ all. AllByRecursion HasOneInnerClasses list.items →
        KeepsAnswers list.items (left_in all.items)) }
{
    let marks = kept_marks(alloc, &list)?;
    let mut all = Vec::with_capacity(alloc, list.len())?;
    let mut index = 0;
    for desc in list {
        all.push(kept_class(alloc, desc, marks[index])?)?;
        index += 1;
    }
    Ok(all)
}
