ghost use Rattle.std.specs.Prelude.{◌≡◌, IfOk};

use hdr_core::{List, Memory, Text, TryCopy};
use sqlite_items::Boxed;
use std::alloc::Global;

/// A primitive type (JLS 4.2).
#[derive(Clone, Copy, Debug, PartialEq, Eq)]
pub enum Primitive {
    Boolean,
    Byte,
    Short,
    Int,
    Long,
    Char,
    Float,
    Double,
}

/// A type as it is written (JLS 4.1 to 4.3, 8.3, 8.4.1), without its annotations, or `void`.
#[cycle(type_tree)]
#[derive(Drop)]
pub enum TypeTree {
    /// The result of a method or constructor, or the type of a class literal.
    Void,
    Primitive(Primitive),
    /// A class, an interface or a type variable.
    Named {
        /// The line of its first word.
        line: u32,
        /// Not empty.
        parts: List<NamePart>,
    },
    Array {
        /// No array.
        element: Boxed<TypeTree>,
        /// At least 1. Those behind a declared name, or behind the formals of a method, count too.
        dims: u32,
    },
}

/// A word of a type's name, with the type arguments behind it (JLS 4.5).
#[cycle(type_tree)]
#[derive(Drop)]
pub struct NamePart {
    pub name: Text,
    /// None where there are no `<` and `>`, and an empty list where nothing is between them.
    pub args: Option<List<ArgTree>>,
}

/// A type argument (JLS 4.5.1).
#[cycle(type_tree)]
#[derive(Drop)]
pub enum ArgTree {
    Exact(TypeTree),
    /// `? extends` a type.
    Extends(TypeTree),
    /// `? super` a type.
    Super(TypeTree),
    /// `?`
    Any,
}

impl TypeTree {
    #[cycle(copy_type_tree)]
    pub fn copy(&self, alloc: Global) -> Result<TypeTree, Memory>
        ensures { IfOk result (λ copy. copy ≡ self.now) }
    {
        match self {
            TypeTree::Void => Ok(TypeTree::Void),
            TypeTree::Primitive(primitive) => Ok(TypeTree::Primitive(*primitive)),
            TypeTree::Named { line, parts } => Ok(TypeTree::Named {
                line: *line,
                parts: copy_parts(alloc, parts.items())?,
            }),
            TypeTree::Array { element, dims } => Ok(TypeTree::Array {
                element: Boxed::new(alloc, element.get().copy(alloc)?)?,
                dims: *dims,
            }),
        }
    }
}

impl NamePart {
    #[cycle(copy_type_tree)]
    pub fn copy(&self, alloc: Global) -> Result<NamePart, Memory>
        ensures { IfOk result (λ copy. copy ≡ self.now) }
    {
        match &self.args {
            None => Ok(NamePart {
                name: self.name.copy(alloc)?,
                args: None,
            }),
            Some(args) => Ok(NamePart {
                name: self.name.copy(alloc)?,
                args: Some(copy_args(alloc, args.items())?),
            }),
        }
    }
}

impl ArgTree {
    #[cycle(copy_type_tree)]
    pub fn copy(&self, alloc: Global) -> Result<ArgTree, Memory>
        ensures { IfOk result (λ copy. copy ≡ self.now) }
    {
        match self {
            ArgTree::Exact(ty) => Ok(ArgTree::Exact(ty.copy(alloc)?)),
            ArgTree::Extends(bound) => Ok(ArgTree::Extends(bound.copy(alloc)?)),
            ArgTree::Super(bound) => Ok(ArgTree::Super(bound.copy(alloc)?)),
            ArgTree::Any => Ok(ArgTree::Any),
        }
    }
}

#[cycle(copy_type_tree)]
fn copy_parts(alloc: Global, parts: &[NamePart]) -> Result<List<NamePart>, Memory>
    ensures { IfOk result (λ copy. copy ≡ parts.now) }
{
    let mut copy = Vec::new(alloc);
    for part in parts {
        copy.push(part.copy(alloc)?)?;
    }
    Ok(List::of(copy))
}

#[cycle(copy_type_tree)]
fn copy_args(alloc: Global, args: &[ArgTree]) -> Result<List<ArgTree>, Memory>
    ensures { IfOk result (λ copy. copy ≡ args.now) }
{
    let mut copy = Vec::new(alloc);
    for arg in args {
        copy.push(arg.copy(alloc)?)?;
    }
    Ok(List::of(copy))
}

impl TryCopy for TypeTree {
    fn try_copy(&self, alloc: Global) -> Result<TypeTree, Memory> {
        self.copy(alloc)
    }
}
