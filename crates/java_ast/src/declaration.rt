ghost use Rattle.std.specs.Prelude.{◌≡◌, IfOk};

use crate::annotation::AnnTree;
use crate::member::{FieldDecl, MethodDecl, Param};
use crate::modifiers::Modifiers;
use crate::types::TypeTree;
use hdr_core::{List, Memory, Text, TryCopy, copy_three};
use sqlite_items::Boxed;
use std::alloc::Global;

/// What a type declaration declares (JLS 8.1, 8.9, 8.10, 9.1, 9.6).
#[derive(Clone, Copy, Debug, PartialEq, Eq)]
pub enum DeclKind {
    Class,
    Interface,
    Enumeration,
    Recorded,
    Annotation,
}

/// A declaration of a class or an interface. What its kind can't have is empty.
#[cycle(declaration)]
#[derive(Drop)]
pub struct TypeDecl {
    pub kind: DeclKind,
    pub line: u32,
    pub mods: Modifiers,
    pub name: Text,
    pub params: List<TypeParam>,
    /// The superclass, or the superinterfaces of an interface.
    pub extends: List<TypeTree>,
    pub implements: List<TypeTree>,
    pub permits: List<TypeTree>,
    pub constants: List<EnumConst>,
    pub components: List<Param>,
    /// Without initialisers.
    pub members: List<Member>,
}

/// A member of a class or an interface (JLS 8.1.7, 9.1.5), or a constructor.
#[cycle(declaration)]
#[derive(Drop)]
pub enum Member {
    Field(FieldDecl),
    Method(MethodDecl),
    Nested(Boxed<TypeDecl>),
}

/// A type parameter (JLS 4.4, 8.1.2, 8.4.4).
#[derive(Drop)]
pub struct TypeParam {
    pub name: Text,
    pub bounds: List<TypeTree>,
}

/// A constant of an enum (JLS 8.9.1), without its arguments.
#[derive(Drop)]
pub struct EnumConst {
    pub line: u32,
    pub anns: List<AnnTree>,
    pub name: Text,
    pub has_body: bool,
}

impl TypeDecl {
    #[cycle(copy_declaration)]
    pub fn copy(&self, alloc: Global) -> Result<TypeDecl, Memory>
        ensures { IfOk result (λ copy. copy ≡ self.now) }
    {
        let members = copy_members(alloc, self.members.items())?;
        let (mods, name, params) = copy_three(alloc, &self.mods, &self.name, &self.params)?;
        let (extends, implements, permits) = copy_three(
            alloc,
            &self.extends,
            &self.implements,
            &self.permits,
        )?;
        Ok(TypeDecl {
            kind: self.kind,
            line: self.line,
            mods,
            name,
            params,
            extends,
            implements,
            permits,
            constants: self.constants.copy(alloc)?,
            components: self.components.copy(alloc)?,
            members,
        })
    }
}

impl Member {
    #[cycle(copy_declaration)]
    pub fn copy(&self, alloc: Global) -> Result<Member, Memory>
        ensures { IfOk result (λ copy. copy ≡ self.now) }
    {
        match self {
            Member::Field(field) => Ok(Member::Field(field.copy(alloc)?)),
            Member::Method(method) => Ok(Member::Method(method.copy(alloc)?)),
            Member::Nested(nested) => Ok(Member::Nested(Boxed::new(
                alloc,
                nested.get().copy(alloc)?,
            )?)),
        }
    }
}

#[cycle(copy_declaration)]
fn copy_members(alloc: Global, members: &[Member]) -> Result<List<Member>, Memory>
    ensures { IfOk result (λ copy. copy ≡ members.now) }
{
    let mut copy = Vec::new(alloc);
    for member in members {
        copy.push(member.copy(alloc)?)?;
    }
    Ok(List::of(copy))
}

impl TypeParam {
    pub fn copy(&self, alloc: Global) -> Result<TypeParam, Memory>
        ensures { IfOk result (λ copy. copy ≡ self.now) }
    {
        Ok(TypeParam {
            name: self.name.copy(alloc)?,
            bounds: self.bounds.copy(alloc)?,
        })
    }
}

impl EnumConst {
    pub fn copy(&self, alloc: Global) -> Result<EnumConst, Memory>
        ensures { IfOk result (λ copy. copy ≡ self.now) }
    {
        Ok(EnumConst {
            line: self.line,
            anns: self.anns.copy(alloc)?,
            name: self.name.copy(alloc)?,
            has_body: self.has_body,
        })
    }
}

impl TryCopy for TypeDecl {
    fn try_copy(&self, alloc: Global) -> Result<TypeDecl, Memory> {
        self.copy(alloc)
    }
}

impl TryCopy for TypeParam {
    fn try_copy(&self, alloc: Global) -> Result<TypeParam, Memory> {
        self.copy(alloc)
    }
}

impl TryCopy for EnumConst {
    fn try_copy(&self, alloc: Global) -> Result<EnumConst, Memory> {
        self.copy(alloc)
    }
}
