//! The forms of texts (JVMS 4.2, 4.3, 4.7.9.1), and items that are numbers of texts.
ghost use Rattle.std.specs.Prelude.{◌≡◌, ◌+◌, ◌<◌, ◌^◌, length, nat_le};
ghost use Rattle.pool_reader.specs.Reading.{Answers, Gives};
ghost use Rattle.pool_reader.specs.Seen.{text_seen};
ghost use Rattle.class_desc.specs.Forms.{this_slots, signature_place};
ghost use Rattle.signature_scan.specs.Scanned.{verdict_of};
ghost use Rattle.attribute_reader.specs.Forms.{form_fault, unless as unless_of, verdict_fault};
ghost use Rattle.attribute_reader.specs.Forms.{is_method_descriptor as is_method_descriptor_of};
ghost use Rattle.attribute_reader.specs.Forms.{is_return_descriptor as is_return_descriptor_of};
ghost use Rattle.attribute_reader.specs.Items.{checked, text_checked, text_at, class_checked};
ghost use Rattle.attribute_reader.specs.Items.{class_at, attribute_name_at};

use class_desc::Place;
use descriptor_scan::{is_field_descriptor, parameter_slots};
use hdr_core::Text;
use java_names::{is_class_name, is_field_name, is_method_name};
use pool_reader::{ClassKind, Pool, ReadErr, Reader};
use signature_scan::{Verdict, scan};
use std::alloc::Global;

/// The flag of a method without `this` (JVMS table 4.6-A).
const STATIC: u16 = 0x0008;

/// The most slots of a method's parameters, `this` among them (JVMS 4.3.3).
const MOST_SLOTS: usize = 255;

/// Above the length of any text of a pool (JVMS 4.4.7), and what a scan can go over.
const LONGEST: usize = 0xffff_ffff;

/// What a text has to be where it is named.
#[derive(Clone, Copy)]
pub enum Form {
    /// A text of any form.
    AnyText,
    ClassName,
    FieldName,
    MethodName,
    FieldDescriptor,
    /// The descriptor of a field, or void.
    ReturnDescriptor,
    /// The descriptor of a method of these flags.
    MethodDescriptor(u16),
    /// The signature of what stands here.
    Signature(Place),
}

impl Form {
    /// What is wrong with a text that hasn't this form.
    #[tactic(auto, unfolding(crate::specs::Forms::form_fault))]
    fn fault(self, text: &[u8]) -> Option<ClassKind>
        requires { length text.now < 2 ^ 32 }
        ensures { result ≡ form_fault self text.now }
    {
        match self {
            Form::AnyText => None,
            Form::ClassName => unless(is_class_name(text), ClassKind::F7),
            Form::FieldName => unless(is_field_name(text), ClassKind::F7),
            Form::MethodName => unless(is_method_name(text), ClassKind::F7),
            Form::FieldDescriptor => unless(is_field_descriptor(text), ClassKind::F7),
            Form::ReturnDescriptor => unless(is_return_descriptor(text), ClassKind::F7),
            Form::MethodDescriptor(flags) => {
                unless(is_method_descriptor(flags, text), ClassKind::F7)
            }
            Form::Signature(place) => signature_fault(place, text),
        }
    }

    /// The text that the item at this offset names, where it has this form.
    fn check<'a>(self, at: u32, named: Result<&'a [u8], ClassKind>) -> Result<&'a [u8], ReadErr>
        ensures { Answers (λ text. text.now) result
            (checked (form_fault self) at (text_seen named.entry)) }
    {
        match named {
            Err(kind) => Err(kind.at(at)),
            Ok(text) if text.len() > LONGEST => Err(ReadErr::Memory),
            Ok(text) => match self.fault(text) {
                Some(kind) => Err(kind.at(at)),
                None => Ok(text),
            },
        }
    }

    /// The number of a text of this form.
    #[tactic(auto, unfolding(crate::specs::Items::numbered_at))]
    pub fn text<'a>(self, reader: &mut Reader<'_>, pool: &Pool<'a>) -> Result<&'a [u8], ReadErr>
        ensures { Gives (λ text. text.now) result reader.new
            (text_at pool.now (form_fault self) reader.old) }
    {
        let at = reader.offset();
        let number = reader.u16()?;
        let text = self.of_number(pool, at, number)?;
        reader.spend(at, text.len())?;
        Ok(text)
    }

    /// The text of this number, which stands at this offset.
    pub fn of_number<'a>(self, pool: &Pool<'a>, at: u32, number: u16) -> Result<&'a [u8], ReadErr>
        ensures { Answers (λ text. text.now) result
            (text_checked pool.now (form_fault self) at number) }
    {
        self.check(at, pool.text(number))
    }

    /// The same, with a text of its own.
    pub fn copy(
        self,
        reader: &mut Reader<'_>,
        alloc: Global,
        pool: &Pool<'_>,
    ) -> Result<Text, ReadErr>
        ensures { Gives (λ text. text) result reader.new
            (text_at pool.now (form_fault self) reader.old) }
    {
        let text = self.text(reader, pool)?;
        Ok(Text::of(alloc, text)?)
    }
}

/// The number of the name of an attribute, which no description has as a text.
#[tactic(auto, unfolding(crate::specs::Items::attribute_name_at))]
pub fn attribute_name<'a>(reader: &mut Reader<'_>, pool: &Pool<'a>) -> Result<&'a [u8], ReadErr>
    ensures { Gives (λ name. name.now) result reader.new (attribute_name_at pool.now reader.old) }
{
    let at = reader.offset();
    let number = reader.u16()?;
    Form::AnyText.of_number(pool, at, number)
}

/// The number of a class, whose name it gives.
#[tactic(auto, unfolding(crate::specs::Items::numbered_at))]
pub fn class_name<'a>(reader: &mut Reader<'_>, pool: &Pool<'a>) -> Result<&'a [u8], ReadErr>
    ensures { Gives (λ name. name.now) result reader.new (class_at pool.now reader.old) }
{
    let at = reader.offset();
    let number = reader.u16()?;
    let name = class_of_number(pool, at, number)?;
    reader.spend(at, name.len())?;
    Ok(name)
}

/// The name of the class of this number, which stands at this offset.
pub fn class_of_number<'a>(pool: &Pool<'a>, at: u32, number: u16) -> Result<&'a [u8], ReadErr>
    ensures { Answers (λ name. name.now) result (class_checked pool.now at number) }
{
    Form::ClassName.check(at, pool.class(number))
}

fn unless(holds: bool, kind: ClassKind) -> Option<ClassKind>
    ensures { result ≡ unless_of holds kind }
{
    if holds { None } else { Some(kind) }
}

/// The descriptor of a method of these flags (JVMS 4.3.3).
fn is_method_descriptor(flags: u16, text: &[u8]) -> bool
    ensures { result ≡ is_method_descriptor_of flags text.now }
{
    match parameter_slots(text) {
        Some(slots) => are_few(slots, flags),
        None => false,
    }
}

/// Whether a method of these flags may have parameters of as many slots.
fn are_few(slots: usize, flags: u16) -> bool
    ensures { result ≡ nat_le (slots + this_slots flags) 255 }
{
    let this = if flags & STATIC == 0 { 1 } else { 0 };
    slots <= MOST_SLOTS - this
}

/// The descriptor of a result (JVMS 4.3.3).
fn is_return_descriptor(text: &[u8]) -> bool
    ensures { result ≡ is_return_descriptor_of text.now }
{
    is_field_descriptor(text) || text == b"V".as_slice()
}

fn signature_fault(place: Place, text: &[u8]) -> Option<ClassKind>
    requires { length text.now < 2 ^ 32 }
    ensures { result ≡ verdict_fault (verdict_of (signature_place place) text.now) }
{
    match scan(text, place.signature()) {
        Verdict::Fine => None,
        Verdict::BadText { at: _ } => Some(ClassKind::F7),
        Verdict::TooDeep { at: _ } => Some(ClassKind::F12),
    }
}
