ghost use Rattle.std.specs.Prelude.{◌≡◌, IfOk};

use crate::value::Value;
use hdr_core::{List, Memory, Text, TryCopy};
use sqlite_items::Boxed;
use std::alloc::Global;

/// How deep values may be nested: one in no other value is 1 deep.
pub const DEEPEST_VALUE: u32 = 64;

/// An annotation (JVMS 4.7.16).
#[cycle(annotation)]
#[derive(Drop)]
pub struct AnnDesc {
    /// The field descriptor of the annotation type.
    pub descriptor: Text,
    pub elements: List<ElemPair>,
}

/// An element of an annotation, with its name.
#[cycle(annotation)]
#[derive(Drop)]
pub struct ElemPair {
    pub name: Text,
    pub value: ElemValue,
}

/// The value of an element (JVMS 4.7.16.1).
#[cycle(annotation)]
#[derive(Drop)]
pub enum ElemValue {
    /// A constant under one of the tags `B C D F I J S Z s`.
    Const { tag: u8, value: Value },
    Enumerated { descriptor: Text, name: Text },
    /// The field descriptor of a class, or `V`.
    ClassOf(Text),
    Nested(Boxed<AnnDesc>),
    List(List<ElemValue>),
}

impl AnnDesc {
    #[cycle(copy_annotation)]
    pub fn copy(&self, alloc: Global) -> Result<AnnDesc, Memory>
        ensures { IfOk result (λ copy. copy ≡ self.now) }
    {
        let pairs = self.elements.items();
        let mut elements = Vec::new(alloc);
        for pair in pairs {
            elements.push(pair.copy(alloc)?)?;
        }
        Ok(AnnDesc {
            descriptor: self.descriptor.copy(alloc)?,
            elements: List::of(elements),
        })
    }
}

impl ElemPair {
    #[cycle(copy_annotation)]
    pub fn copy(&self, alloc: Global) -> Result<ElemPair, Memory>
        ensures { IfOk result (λ copy. copy ≡ self.now) }
    {
        Ok(ElemPair {
            name: self.name.copy(alloc)?,
            value: self.value.copy(alloc)?,
        })
    }
}

impl ElemValue {
    #[cycle(copy_annotation)]
    pub fn copy(&self, alloc: Global) -> Result<ElemValue, Memory>
        ensures { IfOk result (λ copy. copy ≡ self.now) }
    {
        match self {
            ElemValue::Const { tag, value } => Ok(ElemValue::Const {
                tag: *tag,
                value: value.copy(alloc)?,
            }),
            ElemValue::Enumerated { descriptor, name } => Ok(ElemValue::Enumerated {
                descriptor: descriptor.copy(alloc)?,
                name: name.copy(alloc)?,
            }),
            ElemValue::ClassOf(text) => Ok(ElemValue::ClassOf(text.copy(alloc)?)),
            ElemValue::Nested(annotation) => Ok(ElemValue::Nested(Boxed::new(
                alloc,
                annotation.get().copy(alloc)?,
            )?)),
            ElemValue::List(values) => Ok(ElemValue::List(copy_values(alloc, values.items())?)),
        }
    }
}

#[cycle(copy_annotation)]
fn copy_values(alloc: Global, values: &[ElemValue]) -> Result<List<ElemValue>, Memory>
    ensures { IfOk result (λ copy. copy ≡ values.now) }
{
    let mut copy = Vec::new(alloc);
    for value in values {
        copy.push(value.copy(alloc)?)?;
    }
    Ok(List::of(copy))
}

impl TryCopy for AnnDesc {
    fn try_copy(&self, alloc: Global) -> Result<AnnDesc, Memory> {
        self.copy(alloc)
    }
}

impl TryCopy for ElemValue {
    fn try_copy(&self, alloc: Global) -> Result<ElemValue, Memory> {
        self.copy(alloc)
    }
}
