ghost use Rattle.std.specs.Prelude.{◌≡◌, IfOk};

use crate::declaration::TypeDecl;
use hdr_core::{List, Memory, Text, TryCopy, copy_three};
use std::alloc::Global;

/// An ordinary compilation unit (JLS 7.3).
#[derive(Drop)]
pub struct Unit {
    /// The file's number in the order in which files are used.
    pub file: u32,
    pub path: Text,
    /// The words of the package's name, empty for the unnamed package.
    pub package: List<Text>,
    pub imports: List<Import>,
    pub types: List<TypeDecl>,
}

/// An import (JLS 7.5).
#[derive(Drop)]
pub struct Import {
    /// The line of its first token.
    pub line: u32,
    pub is_static: bool,
    /// The words of its name, not empty, without the `*`.
    pub names: List<Text>,
    /// It ends in `.*`.
    pub on_demand: bool,
}

impl Unit {
    pub fn copy(&self, alloc: Global) -> Result<Unit, Memory>
        ensures { IfOk result (λ copy. copy ≡ self.now) }
    {
        let path = self.path.copy(alloc)?;
        let (package, imports, types) = copy_three(
            alloc,
            &self.package,
            &self.imports,
            &self.types,
        )?;
        Ok(Unit {
            file: self.file,
            path,
            package,
            imports,
            types,
        })
    }
}

impl Import {
    pub fn copy(&self, alloc: Global) -> Result<Import, Memory>
        ensures { IfOk result (λ copy. copy ≡ self.now) }
    {
        Ok(Import {
            line: self.line,
            is_static: self.is_static,
            names: self.names.copy(alloc)?,
            on_demand: self.on_demand,
        })
    }
}

impl TryCopy for Import {
    fn try_copy(&self, alloc: Global) -> Result<Import, Memory> {
        self.copy(alloc)
    }
}
