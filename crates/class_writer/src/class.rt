//! The members of a class, and the whole of what stands behind the pool (JVMS 4.1).
ghost use Rattle.std.specs.Prelude.{◌≡◌, IfOk, OnOk};
ghost use Rattle.class_desc.specs.Layout.{member_items, field_items, method_items, class_items};
ghost use Rattle.class_desc.specs.Layout.{counted};
ghost use Rattle.class_writer.specs.Writing.{Puts};

use crate::item::Item;
use crate::items::Items;
use class_desc::{Attr, ClassDesc, FieldDesc, MethodDesc};
use hdr_core::{Memory, Text};
use std::alloc::Global;

impl<'a> Items<'a> {
    /// A field or a method (JVMS 4.5, 4.6).
    fn member(
        &mut self,
        flags: u16,
        name: &'a Text,
        descriptor: &'a Text,
        attrs: &'a [Attr],
    ) -> Result<(), Memory>
        ensures { OnOk result
            (Puts (member_items flags name.now descriptor.now attrs.now) self.old self.new) }
    {
        self.flags(flags)?;
        self.text(name)?;
        self.text(descriptor)?;
        self.attributes(attrs)
    }

    fn fields(&mut self, fields: &'a [FieldDesc]) -> Result<(), Memory>
        ensures { OnOk result (Puts (counted field_items fields.now) self.old self.new) }
    {
        self.push(Item::Count(fields.len()))?;
        for field in fields {
            self.member(
                field.flags,
                &field.name,
                &field.descriptor,
                field.attrs.items(),
            )?;
        }
        Ok(())
    }

    fn methods(&mut self, methods: &'a [MethodDesc]) -> Result<(), Memory>
        ensures { OnOk result (Puts (counted method_items methods.now) self.old self.new) }
    {
        self.push(Item::Count(methods.len()))?;
        for method in methods {
            self.member(
                method.flags,
                &method.name,
                &method.descriptor,
                method.attrs.items(),
            )?;
        }
        Ok(())
    }

    fn class_file(&mut self, desc: &'a ClassDesc) -> Result<(), Memory>
        ensures { OnOk result (Puts (class_items desc.now) self.old self.new) }
    {
        self.flags(desc.flags)?;
        self.class(&desc.name)?;
        self.class_or_none(&desc.super_name)?;
        self.classes(desc.interfaces.items())?;
        self.fields(desc.fields.items())?;
        self.methods(desc.methods.items())?;
        self.attributes(desc.attrs.items())
    }
}

/// What stands behind the pool in the class file of a description.
pub fn items_of(alloc: Global, desc: &ClassDesc) -> Result<Items<'_>, Memory>
    ensures { IfOk result (λ them. them.items ≡ class_items desc.now) }
{
    let mut items = Items::new(alloc)?;
    items.class_file(desc)?;
    Ok(items)
}
