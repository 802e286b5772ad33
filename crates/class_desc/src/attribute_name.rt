//! The names of the attributes that the product keeps (JVMS table 4.7-A).

pub const CONSTANT_VALUE: &[u8] = b"ConstantValue";

pub const EXCEPTIONS: &[u8] = b"Exceptions";

pub const SIGNATURE: &[u8] = b"Signature";

pub const DEPRECATED: &[u8] = b"Deprecated";

pub const SYNTHETIC: &[u8] = b"Synthetic";

pub const INNER_CLASSES: &[u8] = b"InnerClasses";

pub const RECORD: &[u8] = b"Record";

pub const PERMITTED_SUBCLASSES: &[u8] = b"PermittedSubclasses";

pub const ANNOTATION_DEFAULT: &[u8] = b"AnnotationDefault";

pub const METHOD_PARAMETERS: &[u8] = b"MethodParameters";

pub const VISIBLE_ANNOTATIONS: &[u8] = b"RuntimeVisibleAnnotations";

pub const INVISIBLE_ANNOTATIONS: &[u8] = b"RuntimeInvisibleAnnotations";

pub const VISIBLE_PARAMETER_ANNOTATIONS: &[u8] = b"RuntimeVisibleParameterAnnotations";

pub const INVISIBLE_PARAMETER_ANNOTATIONS: &[u8] = b"RuntimeInvisibleParameterAnnotations";
