//! Descriptions of class files (JVMS 4), and what is said of them.
//!
//! A description has no pool, no offsets and only the attributes that the product keeps. Names and
//! types are those of java_names and java_types.
#![tactic(auto)]

mod annotation;
mod attribute;
mod attribute_kind;
pub mod attribute_name;
mod bound_annotations;
mod class;
mod constant_kind;
pub mod element_tag;
mod limits;
mod place;
mod threads;
mod value;

pub use annotation::{AnnDesc, DEEPEST_VALUE, ElemPair, ElemValue};
pub use attribute::{Attr, ComponentDesc, InnerEntry, ParamEntry};
pub use attribute_kind::AttributeKind;
pub use bound_annotations::{Ann, ClassAnns, Deprecations};
pub use class::{ClassDesc, FieldDesc, MethodDesc};
pub use constant_kind::{ConstantKind, NUMBER_LETTERS, NumberKind, STRING_DESCRIPTOR};
pub use java_names::{is_class_name, is_field_name, is_method_name, is_modified_utf8};
pub use java_types::{JArg, JParam, JPart, JSig, JType};
pub use limits::MOST_TEXT;
pub use place::{KEPT_OF_CLASSES, KEPT_OF_COMPONENTS, KEPT_OF_FIELDS, KEPT_OF_METHODS, Place};
pub use value::Value;
