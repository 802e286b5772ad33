ghost use Rattle.std.specs.Prelude.{◌≡◌, IfOk};
ghost use Rattle.class_desc.specs.Places.{attribute_kind, attribute_name};

use crate::annotation::{AnnDesc, ElemValue};
use crate::attribute_kind::AttributeKind;
use crate::value::Value;
use hdr_core::{List, Memory, Text, TryCopy, copy_three};
use std::alloc::Global;

/// An attribute of a class, field, method or component that the product keeps (JVMS 4.7).
#[cycle(attribute)]
#[derive(Drop)]
pub enum Attr {
    ConstantValue(Value),
    /// The binary names of the thrown classes.
    Exceptions(List<Text>),
    Signature(Text),
    Deprecated,
    Synthetic,
    InnerClasses(List<InnerEntry>),
    /// The attribute Record.
    Components(List<ComponentDesc>),
    PermittedSubclasses(List<Text>),
    AnnotationDefault(ElemValue),
    MethodParameters(List<ParamEntry>),
    VisibleAnns(List<AnnDesc>),
    InvisibleAnns(List<AnnDesc>),
    /// A list for each parameter.
    VisibleParamAnns(List<List<AnnDesc>>),
    /// A list for each parameter.
    InvisibleParamAnns(List<List<AnnDesc>>),
}

/// A component of a record (JVMS 4.7.30).
#[cycle(attribute)]
#[derive(Drop)]
pub struct ComponentDesc {
    pub name: Text,
    pub descriptor: Text,
    pub attrs: List<Attr>,
}

/// An entry of InnerClasses (JVMS 4.7.6).
#[derive(Drop)]
pub struct InnerEntry {
    pub inner: Text,
    pub outer: Option<Text>,
    pub name: Option<Text>,
    pub flags: u16,
}

/// An entry of MethodParameters (JVMS 4.7.24).
#[derive(Drop)]
pub struct ParamEntry {
    pub name: Option<Text>,
    pub flags: u16,
}

impl Attr {
    /// What it is.
    pub fn kind(&self) -> AttributeKind
        ensures { result ≡ attribute_kind self.now }
    {
        match self {
            Attr::ConstantValue(_) => AttributeKind::ConstantValue,
            Attr::Exceptions(_) => AttributeKind::Exceptions,
            Attr::Signature(_) => AttributeKind::Signature,
            Attr::Deprecated => AttributeKind::Deprecated,
            Attr::Synthetic => AttributeKind::Synthetic,
            Attr::InnerClasses(_) => AttributeKind::InnerClasses,
            Attr::Components(_) => AttributeKind::Record,
            Attr::PermittedSubclasses(_) => AttributeKind::PermittedSubclasses,
            Attr::AnnotationDefault(_) => AttributeKind::AnnotationDefault,
            Attr::MethodParameters(_) => AttributeKind::MethodParameters,
            Attr::VisibleAnns(_) => AttributeKind::VisibleAnnotations,
            Attr::InvisibleAnns(_) => AttributeKind::InvisibleAnnotations,
            Attr::VisibleParamAnns(_) => AttributeKind::VisibleParameterAnnotations,
            Attr::InvisibleParamAnns(_) => AttributeKind::InvisibleParameterAnnotations,
        }
    }

    /// The name that it has in class files.
    #[tactic(auto, unfolding(crate::specs::Places::attribute_name))]
    pub fn name(&self) -> &'static [u8]
        ensures { result.now ≡ attribute_name self.now }
    {
        self.kind().name()
    }

    #[cycle(copy_attribute)]
    pub fn copy(&self, alloc: Global) -> Result<Attr, Memory>
        ensures { IfOk result (λ copy. copy ≡ self.now) }
    {
        match self {
            Attr::ConstantValue(value) => Ok(Attr::ConstantValue(value.copy(alloc)?)),
            Attr::Exceptions(classes) => Ok(Attr::Exceptions(classes.copy(alloc)?)),
            Attr::Signature(text) => Ok(Attr::Signature(text.copy(alloc)?)),
            Attr::Deprecated => Ok(Attr::Deprecated),
            Attr::Synthetic => Ok(Attr::Synthetic),
            Attr::InnerClasses(entries) => Ok(Attr::InnerClasses(entries.copy(alloc)?)),
            Attr::Components(components) => {
                Ok(Attr::Components(copy_components(alloc, components.items())?))
            }
            Attr::PermittedSubclasses(classes) => {
                Ok(Attr::PermittedSubclasses(classes.copy(alloc)?))
            }
            Attr::AnnotationDefault(value) => Ok(Attr::AnnotationDefault(value.copy(alloc)?)),
            Attr::MethodParameters(entries) => Ok(Attr::MethodParameters(entries.copy(alloc)?)),
            Attr::VisibleAnns(annotations) => Ok(Attr::VisibleAnns(annotations.copy(alloc)?)),
            Attr::InvisibleAnns(annotations) => Ok(Attr::InvisibleAnns(annotations.copy(alloc)?)),
            Attr::VisibleParamAnns(lists) => Ok(Attr::VisibleParamAnns(lists.copy(alloc)?)),
            Attr::InvisibleParamAnns(lists) => Ok(Attr::InvisibleParamAnns(lists.copy(alloc)?)),
        }
    }
}

impl ComponentDesc {
    #[cycle(copy_attribute)]
    pub fn copy(&self, alloc: Global) -> Result<ComponentDesc, Memory>
        ensures { IfOk result (λ copy. copy ≡ self.now) }
    {
        let attributes = self.attrs.items();
        let mut attrs = Vec::new(alloc);
        for attribute in attributes {
            attrs.push(attribute.copy(alloc)?)?;
        }
        Ok(ComponentDesc {
            name: self.name.copy(alloc)?,
            descriptor: self.descriptor.copy(alloc)?,
            attrs: List::of(attrs),
        })
    }
}

#[cycle(copy_attribute)]
fn copy_components(
    alloc: Global,
    components: &[ComponentDesc],
) -> Result<List<ComponentDesc>, Memory>
    ensures { IfOk result (λ copy. copy ≡ components.now) }
{
    let mut copy = Vec::new(alloc);
    for component in components {
        copy.push(component.copy(alloc)?)?;
    }
    Ok(List::of(copy))
}

impl TryCopy for Attr {
    fn try_copy(&self, alloc: Global) -> Result<Attr, Memory> {
        self.copy(alloc)
    }
}

impl InnerEntry {
    pub fn copy(&self, alloc: Global) -> Result<InnerEntry, Memory>
        ensures { IfOk result (λ copy. copy ≡ self.now) }
    {
        let (inner, outer, name) = copy_three(alloc, &self.inner, &self.outer, &self.name)?;
        Ok(InnerEntry {
            inner,
            outer,
            name,
            flags: self.flags,
        })
    }
}

impl TryCopy for InnerEntry {
    fn try_copy(&self, alloc: Global) -> Result<InnerEntry, Memory> {
        self.copy(alloc)
    }
}

impl ParamEntry {
    pub fn copy(&self, alloc: Global) -> Result<ParamEntry, Memory>
        ensures { IfOk result (λ copy. copy ≡ self.now) }
    {
        Ok(ParamEntry {
            name: self.name.try_copy(alloc)?,
            flags: self.flags,
        })
    }
}

impl TryCopy for ParamEntry {
    fn try_copy(&self, alloc: Global) -> Result<ParamEntry, Memory> {
        self.copy(alloc)
    }
}
