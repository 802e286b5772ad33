//! What a question asks for, from its value.
ghost use Rattle.std.specs.Prelude.{◌≡◌, ◌<◌, IfOk};
ghost use Rattle.option_words.specs.Seen.{parts_seen};
ghost use Rattle.questions.specs.Forms.{formed};
ghost use Rattle.questions.specs.Values.{split_first as split_at, field_named};
ghost use Rattle.questions.specs.Values.{field_of, member_of, annotations_of, query_of};
ghost use Rattle.questions.specs.Values.{of_class, of_field, of_method};
ghost use Rattle.questions.specs.declared.form.Form.TheVariants.{ClassName, FieldName};
ghost use Rattle.questions.specs.declared.form.Form.TheVariants.{FieldDescriptor};
ghost use Rattle.questions.specs.declared.form.Form.TheVariants.{MethodName, MethodDescriptor};

use crate::form::Form;
use crate::kind::Kind;
use hdr_core::{Memory, Text};
use std::alloc::Global;

/// A question without its value. Names and descriptors are modified UTF-8.
#[derive(Drop)]
pub enum Query {
    /// The class of a binary name.
    Type(Text),
    /// The supertypes of a class.
    Supers(Text),
    /// A field (JVMS 5.4.3.2).
    Field(MemberRef),
    /// A method of a class (JVMS 5.4.3.3).
    Method(MemberRef),
    /// A method of an interface (JVMS 5.4.3.4).
    InterfaceMethod(MemberRef),
    /// The constant of a field that the class declares.
    Constant(NamedField),
    /// The annotations of a class, or of a member that it declares.
    Annotations { class: Text, part: Part },
}

/// A symbolic reference to a field or a method (JVMS 5.1).
#[derive(Drop)]
pub struct MemberRef {
    pub class: Text,
    pub name: Text,
    pub descriptor: Text,
}

/// A field by its class and its name.
#[derive(Drop)]
pub struct NamedField {
    pub class: Text,
    pub name: Text,
}

/// What of a class annotations are asked of.
#[derive(Drop)]
pub enum Part {
    Whole,
    FieldPart(Text),
    MethodPart { name: Text, descriptor: Text },
}

/// Stands between the name of a class and what is asked of it.
pub const MEMBER_MARK: char = '#';

/// Stands between the name of a member and its descriptor.
pub const DESCRIPTOR_MARK: char = ':';

impl Query {
    /// What a value asks for: none where it hasn't the form that the kind needs.
    pub fn of(alloc: Global, kind: Kind, value: &str) -> Result<Option<Query>, Memory>
        ensures { IfOk result (λ query. query ≡ query_of kind value.now) }
    {
        match kind {
            Kind::Type => Ok(class(alloc, value)?.map(|class| Query::Type(class))),
            Kind::Supers => Ok(class(alloc, value)?.map(|class| Query::Supers(class))),
            Kind::Field => Ok(described_field(alloc, value)?.map(|field| Query::Field(field))),
            Kind::Method => Ok(method(alloc, value)?.map(|method| Query::Method(method))),
            Kind::InterfaceMethod => {
                Ok(method(alloc, value)?.map(|method| Query::InterfaceMethod(method)))
            }
            Kind::Constant => Ok(field(alloc, value)?.map(|field| Query::Constant(field))),
            Kind::Annotations => annotated(alloc, value),
        }
    }
}

/// What stands before the first of a mark, and behind it.
fn split_first(text: &str, mark: char) -> Option<(&str, &str)>
    requires { mark < 128 }
    ensures { parts_seen result ≡ split_at mark text.now }
{
    text.split_once(mark)
}

fn class(alloc: Global, value: &str) -> Result<Option<Text>, Memory>
    ensures { IfOk result (λ class. class ≡ formed ClassName value.now) }
{
    Form::ClassName.read(alloc, value)
}

/// A field by its class and its name: `N#x`.
fn field(alloc: Global, value: &str) -> Result<Option<NamedField>, Memory>
    ensures { IfOk result (λ field. field ≡ field_of value.now) }
{
    match split_first(value, MEMBER_MARK) {
        Some((class, name)) => named_field(alloc, class, name),
        None => Ok(None),
    }
}

fn named_field(alloc: Global, class: &str, name: &str) -> Result<Option<NamedField>, Memory>
    ensures { IfOk result (λ field.
        field ≡ field_named (formed ClassName class.now) (formed FieldName name.now)) }
{
    let Some(class) = Form::ClassName.read(alloc, class)? else {
        return Ok(None);
    };
    let Some(name) = Form::FieldName.read(alloc, name)? else {
        return Ok(None);
    };
    Ok(Some(NamedField { class, name }))
}

/// A field by its class, its name and its descriptor: `N#x:D`.
fn described_field(alloc: Global, value: &str) -> Result<Option<MemberRef>, Memory>
    ensures { IfOk result (λ field. field ≡ member_of FieldName FieldDescriptor value.now) }
{
    member(alloc, value, Form::FieldName, Form::FieldDescriptor)
}

/// A method by its class, its name and its descriptor: `N#m:D`.
fn method(alloc: Global, value: &str) -> Result<Option<MemberRef>, Memory>
    ensures { IfOk result (λ method. method ≡ member_of MethodName MethodDescriptor value.now) }
{
    member(alloc, value, Form::MethodName, Form::MethodDescriptor)
}

fn member(
    alloc: Global,
    value: &str,
    name_form: Form,
    descriptor_form: Form,
) -> Result<Option<MemberRef>, Memory>
    ensures { IfOk result (λ member. member ≡ member_of name_form descriptor_form value.now) }
{
    let Some((class, behind)) = split_first(value, MEMBER_MARK) else {
        return Ok(None);
    };
    let Some((name, descriptor)) = split_first(behind, DESCRIPTOR_MARK) else {
        return Ok(None);
    };
    let Some(class) = Form::ClassName.read(alloc, class)? else {
        return Ok(None);
    };
    let Some(name) = name_form.read(alloc, name)? else {
        return Ok(None);
    };
    let Some(descriptor) = descriptor_form.read(alloc, descriptor)? else {
        return Ok(None);
    };
    Ok(Some(MemberRef {
        class,
        name,
        descriptor,
    }))
}

/// A class, or a member of it: one with a descriptor is a method, one without a field.
fn annotated(alloc: Global, value: &str) -> Result<Option<Query>, Memory>
    ensures { IfOk result (λ query. query ≡ annotations_of value.now) }
{
    let Some((_, behind)) = split_first(value, MEMBER_MARK) else {
        return Ok(class(alloc, value)?.map(|class| annotated_class(class)));
    };
    Ok(match split_first(behind, DESCRIPTOR_MARK) {
        Some(_) => method(alloc, value)?.map(|method| annotated_method(method)),
        None => field(alloc, value)?.map(|field| annotated_field(field)),
    })
}

fn annotated_class(class: Text) -> Query
    ensures { result ≡ of_class class }
{
    Query::Annotations {
        class,
        part: Part::Whole,
    }
}

fn annotated_field(field: NamedField) -> Query
    ensures { result ≡ of_field field }
{
    let NamedField { class, name } = field;
    Query::Annotations {
        class,
        part: Part::FieldPart(name),
    }
}

fn annotated_method(method: MemberRef) -> Query
    ensures { result ≡ of_method method }
{
    let MemberRef {
        class,
        name,
        descriptor,
    } = method;
    Query::Annotations {
        class,
        part: Part::MethodPart { name, descriptor },
    }
}
