ghost use Rattle.std.specs.Prelude.{◌≡◌, IfOk};

use crate::expression::Expr;
use hdr_core::{List, Memory, Text, TryCopy};
use std::alloc::Global;

/// An annotation (JLS 9.7).
#[cycle(annotation_tree)]
#[derive(Drop)]
pub struct AnnTree {
    /// The line of its `@`.
    pub line: u32,
    /// The words of its type's name, not empty.
    pub names: List<Text>,
    pub args: List<ElemArg>,
}

/// An element of an annotation with its value. A sole value without a name is that of `value`
/// (JLS 9.7.3).
#[cycle(annotation_tree)]
#[derive(Drop)]
pub struct ElemArg {
    pub name: Text,
    pub value: ElemTree,
}

/// The value of an element (JLS 9.7.1).
#[cycle(annotation_tree)]
#[derive(Drop)]
pub enum ElemTree {
    Value(Expr),
    Ann(AnnTree),
    /// `{ .. }`
    List(List<ElemTree>),
}

impl AnnTree {
    #[cycle(copy_annotation_tree)]
    pub fn copy(&self, alloc: Global) -> Result<AnnTree, Memory>
        ensures { IfOk result (λ copy. copy ≡ self.now) }
    {
        Ok(AnnTree {
            line: self.line,
            names: self.names.copy(alloc)?,
            args: copy_element_args(alloc, self.args.items())?,
        })
    }
}

impl ElemArg {
    #[cycle(copy_annotation_tree)]
    pub fn copy(&self, alloc: Global) -> Result<ElemArg, Memory>
        ensures { IfOk result (λ copy. copy ≡ self.now) }
    {
        Ok(ElemArg {
            name: self.name.copy(alloc)?,
            value: self.value.copy(alloc)?,
        })
    }
}

impl ElemTree {
    #[cycle(copy_annotation_tree)]
    pub fn copy(&self, alloc: Global) -> Result<ElemTree, Memory>
        ensures { IfOk result (λ copy. copy ≡ self.now) }
    {
        match self {
            ElemTree::Value(expression) => Ok(ElemTree::Value(expression.copy(alloc)?)),
            ElemTree::Ann(annotation) => Ok(ElemTree::Ann(annotation.copy(alloc)?)),
            ElemTree::List(values) => Ok(ElemTree::List(copy_elements(alloc, values.items())?)),
        }
    }
}

#[cycle(copy_annotation_tree)]
fn copy_element_args(alloc: Global, args: &[ElemArg]) -> Result<List<ElemArg>, Memory>
    ensures { IfOk result (λ copy. copy ≡ args.now) }
{
    let mut copy = Vec::new(alloc);
    for arg in args {
        copy.push(arg.copy(alloc)?)?;
    }
    Ok(List::of(copy))
}

#[cycle(copy_annotation_tree)]
fn copy_elements(alloc: Global, values: &[ElemTree]) -> Result<List<ElemTree>, Memory>
    ensures { IfOk result (λ copy. copy ≡ values.now) }
{
    let mut copy = Vec::new(alloc);
    for value in values {
        copy.push(value.copy(alloc)?)?;
    }
    Ok(List::of(copy))
}

impl TryCopy for AnnTree {
    fn try_copy(&self, alloc: Global) -> Result<AnnTree, Memory> {
        self.copy(alloc)
    }
}

impl TryCopy for ElemTree {
    fn try_copy(&self, alloc: Global) -> Result<ElemTree, Memory> {
        self.copy(alloc)
    }
}
