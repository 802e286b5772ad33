//! The kinds of attributes that the product keeps (JVMS table 4.7-A).
ghost use Rattle.std.specs.Prelude.{◌≡◌};
ghost use Rattle.class_desc.specs.Places.{kind_name};

use crate::attribute_name as names;

#[derive(Clone, Copy, Debug, PartialEq, Eq)]
pub enum AttributeKind {
    ConstantValue,
    Exceptions,
    Signature,
    Deprecated,
    Synthetic,
    InnerClasses,
    Record,
    PermittedSubclasses,
    AnnotationDefault,
    MethodParameters,
    VisibleAnnotations,
    InvisibleAnnotations,
    VisibleParameterAnnotations,
    InvisibleParameterAnnotations,
}

impl AttributeKind {
    /// The name that an attribute of this kind has in class files.
    pub fn name(self) -> &'static [u8]
        ensures { result.now ≡ kind_name self }
    {
        match self {
            AttributeKind::ConstantValue => names::CONSTANT_VALUE,
            AttributeKind::Exceptions => names::EXCEPTIONS,
            AttributeKind::Signature => names::SIGNATURE,
            AttributeKind::Deprecated => names::DEPRECATED,
            AttributeKind::Synthetic => names::SYNTHETIC,
            AttributeKind::InnerClasses => names::INNER_CLASSES,
            AttributeKind::Record => names::RECORD,
            AttributeKind::PermittedSubclasses => names::PERMITTED_SUBCLASSES,
            AttributeKind::AnnotationDefault => names::ANNOTATION_DEFAULT,
            AttributeKind::MethodParameters => names::METHOD_PARAMETERS,
            AttributeKind::VisibleAnnotations => names::VISIBLE_ANNOTATIONS,
            AttributeKind::InvisibleAnnotations => names::INVISIBLE_ANNOTATIONS,
            AttributeKind::VisibleParameterAnnotations => names::VISIBLE_PARAMETER_ANNOTATIONS,
            AttributeKind::InvisibleParameterAnnotations => names::INVISIBLE_PARAMETER_ANNOTATIONS,
        }
    }
}
