ghost use Rattle.std.specs.Prelude.{◌≡◌, IfOk};

use crate::attribute::Attr;
use hdr_core::{List, Memory, Text, TryCopy, copy_three};
use std::alloc::Global;

/// A class file (JVMS 4.1), its names and descriptors as modified UTF-8.
#[derive(Drop)]
pub struct ClassDesc {
    pub minor: u16,
    pub major: u16,
    pub flags: u16,
    /// The binary name, with `/` between its parts.
    pub name: Text,
    /// None for java/lang/Object alone.
    pub super_name: Option<Text>,
    pub interfaces: List<Text>,
    pub fields: List<FieldDesc>,
    pub methods: List<MethodDesc>,
    pub attrs: List<Attr>,
}

/// A field (JVMS 4.5).
#[derive(Drop)]
pub struct FieldDesc {
    pub flags: u16,
    pub name: Text,
    pub descriptor: Text,
    pub attrs: List<Attr>,
}

/// A method (JVMS 4.6).
#[derive(Drop)]
pub struct MethodDesc {
    pub flags: u16,
    pub name: Text,
    pub descriptor: Text,
    pub attrs: List<Attr>,
}

impl ClassDesc {
    pub fn copy(&self, alloc: Global) -> Result<ClassDesc, Memory>
        ensures { IfOk result (λ copy. copy ≡ self.now) }
    {
        let (name, super_name, interfaces) = copy_three(
            alloc,
            &self.name,
            &self.super_name,
            &self.interfaces,
        )?;
        let (fields, methods, attrs) = copy_three(alloc, &self.fields, &self.methods, &self.attrs)?;
        Ok(ClassDesc {
            minor: self.minor,
            major: self.major,
            flags: self.flags,
            name,
            super_name,
            interfaces,
            fields,
            methods,
            attrs,
        })
    }
}

impl FieldDesc {
    pub fn copy(&self, alloc: Global) -> Result<FieldDesc, Memory>
        ensures { IfOk result (λ copy. copy ≡ self.now) }
    {
        let (name, descriptor, attrs) = copy_three(
            alloc,
            &self.name,
            &self.descriptor,
            &self.attrs,
        )?;
        Ok(FieldDesc {
            flags: self.flags,
            name,
            descriptor,
            attrs,
        })
    }
}

impl TryCopy for FieldDesc {
    fn try_copy(&self, alloc: Global) -> Result<FieldDesc, Memory> {
        self.copy(alloc)
    }
}

impl MethodDesc {
    pub fn copy(&self, alloc: Global) -> Result<MethodDesc, Memory>
        ensures { IfOk result (λ copy. copy ≡ self.now) }
    {
        let (name, descriptor, attrs) = copy_three(
            alloc,
            &self.name,
            &self.descriptor,
            &self.attrs,
        )?;
        Ok(MethodDesc {
            flags: self.flags,
            name,
            descriptor,
            attrs,
        })
    }
}

impl TryCopy for MethodDesc {
    fn try_copy(&self, alloc: Global) -> Result<MethodDesc, Memory> {
        self.copy(alloc)
    }
}
