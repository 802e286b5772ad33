//! The forms of the parts of a value (JVMS 4.2, 4.3).
ghost use Rattle.std.specs.Prelude.{◌≡◌, IfOk};
ghost use Rattle.questions.specs.Forms.{has_form, formed, is_method_descriptor as is_of_method};

use descriptor_scan::{is_field_descriptor, parameter_slots};
use hdr_core::{Memory, Text};
use java_names::{is_class_name, is_field_name, is_method_name, name_of_path};
use std::alloc::Global;

/// How many slots the parameters of a method may take (JVMS 4.3.3). A question doesn't tell
/// whether its method has `this`, so that isn't counted.
pub const MOST_SLOTS: usize = 255;

/// What a part of a value has to be.
#[derive(Clone, Copy)]
pub enum Form {
    ClassName,
    FieldName,
    MethodName,
    FieldDescriptor,
    MethodDescriptor,
}

impl Form {
    /// Whether the text has the form.
    pub fn holds(self, text: &[u8]) -> bool
        ensures { result ≡ has_form self text.now }
    {
        match self {
            Form::ClassName => is_class_name(text),
            Form::FieldName => is_field_name(text),
            Form::MethodName => is_method_name(text),
            Form::FieldDescriptor => is_field_descriptor(text),
            Form::MethodDescriptor => is_method_descriptor(text),
        }
    }

    /// The part in modified UTF-8, as names in class files are, if that has the form.
    pub fn read(self, alloc: Global, part: &str) -> Result<Option<Text>, Memory>
        ensures { IfOk result (λ text. text ≡ formed self part.now) }
    {
        let text = name_of_path(alloc, part)?;
        Ok(if self.holds(text.bytes()) {
            Some(text)
        } else {
            None
        })
    }
}

fn is_method_descriptor(text: &[u8]) -> bool
    ensures { result ≡ is_of_method text.now }
{
    match parameter_slots(text) {
        Some(slots) => slots <= MOST_SLOTS,
        None => false,
    }
}
