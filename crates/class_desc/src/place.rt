//! Which attributes a description keeps (JVMS 4.7). Every other one is passed over.
ghost use Rattle.std.specs.Prelude.{◌≡◌, find};
ghost use Rattle.class_desc.specs.Places.{kind_name, kept_kind, keeps as keeps_of};
ghost use Rattle.class_desc.specs.Forms.{signature_place};
ghost use Rattle.java_names.specs.Names.{is_text};

use crate::attribute_kind::AttributeKind;
use java_types::SigPlace;

/// Where an attribute stands.
#[derive(Clone, Copy)]
pub enum Place {
    Class,
    Field,
    Method,
    /// A component of a record (JVMS 4.7.30).
    Component,
}

pub const KEPT_OF_CLASSES: [AttributeKind; 8] = [
    AttributeKind::Signature,
    AttributeKind::Deprecated,
    AttributeKind::Synthetic,
    AttributeKind::InnerClasses,
    AttributeKind::Record,
    AttributeKind::PermittedSubclasses,
    AttributeKind::VisibleAnnotations,
    AttributeKind::InvisibleAnnotations,
];

pub const KEPT_OF_FIELDS: [AttributeKind; 6] = [
    AttributeKind::ConstantValue,
    AttributeKind::Signature,
    AttributeKind::Deprecated,
    AttributeKind::Synthetic,
    AttributeKind::VisibleAnnotations,
    AttributeKind::InvisibleAnnotations,
];

pub const KEPT_OF_METHODS: [AttributeKind; 10] = [
    AttributeKind::Exceptions,
    AttributeKind::Signature,
    AttributeKind::Deprecated,
    AttributeKind::Synthetic,
    AttributeKind::AnnotationDefault,
    AttributeKind::MethodParameters,
    AttributeKind::VisibleAnnotations,
    AttributeKind::InvisibleAnnotations,
    AttributeKind::VisibleParameterAnnotations,
    AttributeKind::InvisibleParameterAnnotations,
];

pub const KEPT_OF_COMPONENTS: [AttributeKind; 3] = [
    AttributeKind::Signature,
    AttributeKind::VisibleAnnotations,
    AttributeKind::InvisibleAnnotations,
];

impl Place {
    /// What a signature here is one of (JVMS 4.7.9).
    pub fn signature(self) -> SigPlace
        ensures { result ≡ signature_place self }
    {
        match self {
            Place::Class => SigPlace::ClassPlace,
            Place::Method => SigPlace::MethodPlace,
            Place::Field | Place::Component => SigPlace::FieldPlace,
        }
    }

    /// The kind of the attribute of this name, where a description keeps it here.
    pub fn kept(self, name: &[u8]) -> Option<AttributeKind>
        ensures { result ≡ kept_kind self name.now }
    {
        match self {
            Place::Class => kind_among(&KEPT_OF_CLASSES, name),
            Place::Field => kind_among(&KEPT_OF_FIELDS, name),
            Place::Method => kind_among(&KEPT_OF_METHODS, name),
            Place::Component => kind_among(&KEPT_OF_COMPONENTS, name),
        }
    }

    /// Whether a description keeps the attribute of this name here.
    pub fn keeps(self, name: &[u8]) -> bool
        ensures { result ≡ keeps_of self name.now }
    {
        self.kept(name).is_some()
    }
}

fn kind_among(kinds: &[AttributeKind], name: &[u8]) -> Option<AttributeKind>
    ensures { result ≡ find (λ kind. is_text (kind_name kind) name.now) kinds.now }
{
    kinds.iter().copied().find(|kind| kind.name() == name)
}
