ghost use Rattle.std.specs.Prelude.{◌≡◌, IfOk};

use crate::annotation::ElemTree;
use crate::declaration::TypeParam;
use crate::expression::Expr;
use crate::modifiers::Modifiers;
use crate::types::TypeTree;
use hdr_core::{List, Memory, Text, TryCopy, copy_three};
use std::alloc::Global;

/// A field: one for each declarator (JLS 8.3).
#[derive(Drop)]
pub struct FieldDecl {
    pub line: u32,
    pub mods: Modifiers,
    pub ty: TypeTree,
    pub name: Text,
    pub init: Init,
}

/// The initialiser of a field (JLS 8.3.2).
#[derive(Drop)]
pub enum Init {
    Absent,
    /// One that can be no constant.
    Other,
    Plain(Expr),
}

/// A method or a constructor (JLS 8.4, 8.8, 8.10.4, 9.4, 9.6.1).
#[derive(Drop)]
pub struct MethodDecl {
    pub line: u32,
    pub mods: Modifiers,
    pub kind: MethodKind,
    pub params: List<TypeParam>,
    /// `Void` for a constructor.
    pub ret: TypeTree,
    /// `<init>` for a constructor.
    pub name: Text,
    /// Without the receiver.
    pub formals: List<Param>,
    pub throws: List<TypeTree>,
    /// The default value of an annotation's element (JLS 9.6.2).
    pub default_value: Option<ElemTree>,
}

#[derive(Clone, Copy, Debug, PartialEq, Eq)]
pub enum MethodKind {
    Plain,
    Constructor,
    /// A compact constructor (JLS 8.10.4.2).
    Compact,
}

/// A formal parameter (JLS 8.4.1), or a component of a record (JLS 8.10.1).
#[derive(Drop)]
pub struct Param {
    pub line: u32,
    pub mods: Modifiers,
    /// Without the dimension for which `...` stands.
    pub ty: TypeTree,
    pub name: Text,
    /// `...` stands behind the type.
    pub varargs: bool,
}

impl FieldDecl {
    pub fn copy(&self, alloc: Global) -> Result<FieldDecl, Memory>
        ensures { IfOk result (λ copy. copy ≡ self.now) }
    {
        let init = self.init.copy(alloc)?;
        let (mods, ty, name) = copy_three(alloc, &self.mods, &self.ty, &self.name)?;
        Ok(FieldDecl {
            line: self.line,
            mods,
            ty,
            name,
            init,
        })
    }
}

impl Init {
    pub fn copy(&self, alloc: Global) -> Result<Init, Memory>
        ensures { IfOk result (λ copy. copy ≡ self.now) }
    {
        match self {
            Init::Absent => Ok(Init::Absent),
            Init::Other => Ok(Init::Other),
            Init::Plain(expression) => Ok(Init::Plain(expression.copy(alloc)?)),
        }
    }
}

impl MethodDecl {
    pub fn copy(&self, alloc: Global) -> Result<MethodDecl, Memory>
        ensures { IfOk result (λ copy. copy ≡ self.now) }
    {
        let (mods, params, ret) = copy_three(alloc, &self.mods, &self.params, &self.ret)?;
        let (name, formals, throws) = copy_three(alloc, &self.name, &self.formals, &self.throws)?;
        Ok(MethodDecl {
            line: self.line,
            mods,
            kind: self.kind,
            params,
            ret,
            name,
            formals,
            throws,
            default_value: self.default_value.try_copy(alloc)?,
        })
    }
}

impl Param {
    pub fn copy(&self, alloc: Global) -> Result<Param, Memory>
        ensures { IfOk result (λ copy. copy ≡ self.now) }
    {
        let (mods, ty, name) = copy_three(alloc, &self.mods, &self.ty, &self.name)?;
        Ok(Param {
            line: self.line,
            mods,
            ty,
            name,
            varargs: self.varargs,
        })
    }
}

impl TryCopy for Param {
    fn try_copy(&self, alloc: Global) -> Result<Param, Memory> {
        self.copy(alloc)
    }
}
