//! The annotations of a class that was compiled from a source.
ghost use Rattle.std.specs.Prelude.{◌≡◌, IfOk};

use crate::annotation::{AnnDesc, ElemValue};
use hdr_core::{List, Memory, TryCopy, copy_three};
use std::alloc::Global;

/// An annotation, and whether it stands among the visible ones (JVMS 4.7.16, 4.7.17).
#[derive(Drop)]
pub struct Ann {
    pub visible: bool,
    pub desc: AnnDesc,
}

/// The annotations of a class, each list in the order of the members that it belongs to.
#[derive(Drop)]
pub struct ClassAnns {
    pub own: List<Ann>,
    pub fields: List<List<Ann>>,
    pub methods: List<List<Ann>>,
    /// For each method a list for each formal parameter.
    pub formals: List<List<List<Ann>>>,
    pub components: List<List<Ann>>,
    /// For each method the default value of an annotation's element (JVMS 4.7.22).
    pub defaults: List<Option<ElemValue>>,
    pub deprecated: Deprecations,
}

/// What of a class is deprecated (JVMS 4.7.15).
#[derive(Drop)]
pub struct Deprecations {
    pub own: bool,
    pub fields: List<bool>,
    pub methods: List<bool>,
}

impl Ann {
    pub fn copy(&self, alloc: Global) -> Result<Ann, Memory>
        ensures { IfOk result (λ copy. copy ≡ self.now) }
    {
        Ok(Ann {
            visible: self.visible,
            desc: self.desc.copy(alloc)?,
        })
    }
}

impl TryCopy for Ann {
    fn try_copy(&self, alloc: Global) -> Result<Ann, Memory> {
        self.copy(alloc)
    }
}

impl ClassAnns {
    pub fn copy(&self, alloc: Global) -> Result<ClassAnns, Memory>
        ensures { IfOk result (λ copy. copy ≡ self.now) }
    {
        let deprecated = self.deprecated.copy(alloc)?;
        let (own, fields, methods) = copy_three(alloc, &self.own, &self.fields, &self.methods)?;
        let (formals, components, defaults) = copy_three(
            alloc,
            &self.formals,
            &self.components,
            &self.defaults,
        )?;
        Ok(ClassAnns {
            own,
            fields,
            methods,
            formals,
            components,
            defaults,
            deprecated,
        })
    }
}

impl Deprecations {
    pub fn copy(&self, alloc: Global) -> Result<Deprecations, Memory>
        ensures { IfOk result (λ copy. copy ≡ self.now) }
    {
        Ok(Deprecations {
            own: self.own,
            fields: List::of(self.fields.items().to_vec(alloc)?),
            methods: List::of(self.methods.items().to_vec(alloc)?),
        })
    }
}
