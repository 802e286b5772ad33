//! The members that a class declares.
ghost use Rattle.std.specs.Prelude.{◌≡◌, ◌<◌, ◌^◌, IfSome, MatchOption, None, Some, length};
ghost use Rattle.std.specs.Prelude.{find, position, slice_get, is_some, if◌then◌else◌};
ghost use Rattle.std.specs.Prelude.{option_and_then};
ghost use Rattle.std.specs.List.{list_any};
ghost use Rattle.class_desc.specs.declared.attribute.Attr.{out-Attr};
ghost use Rattle.class_views.specs.Flags.{has_flag as has_flag_of};
ghost use Rattle.class_views.specs.View.{constant_in, first_attribute};
ghost use Rattle.class_views.specs.Resolution.{field_in, method_in, interface_method_in};
ghost use Rattle.class_views.specs.Resolution.{object_method_in};
ghost use Rattle.member_index.specs.Index.{IsIndexOf, passes_at};
ghost use Rattle.client_view.specs.Indexed.{HaveFewMembers};
ghost use Rattle.client_view.specs.Members.{declares, declared_at, Meets};
ghost use Rattle.client_view.specs.Members.{constant_in_class, field_named_in};
ghost use Rattle.client_view.specs.Numbers.{views};
ghost use Rattle.client_view.specs.Replies.{fields_of, methods_of};
ghost use Rattle.client_view.specs.Sole.{is_concrete as is_concrete_of};
ghost use Rattle.client_view.specs.Sought.{meant, holds_constant, is_inherited};
ghost use Rattle.client_view.specs.Sought.{is_shared as is_shared_method};

use crate::flags::{ABSTRACT, FINAL, INTERFACE, PRIVATE, PUBLIC, STATIC, has_flag};
use crate::reply::MemberAt;
use crate::sought::{
    Sought, field_place, item_at, method_place, method_places, place_at, place_of,
};
use class_desc::{Attr, ClassDesc, FieldDesc, MethodDesc};
use hdr_core::Text;
use member_index::MemberIndex;

/// A field or a method that was met, with its flags.
#[derive(Clone, Copy)]
pub struct Met {
    pub at: MemberAt,
    pub flags: u16,
}

fn met_at(class: u32, index: usize, flags: u16) -> Met
    requires { index < 2 ^ 32 }
    ensures { result ≡ record { at = record { class = class; index = index }; flags = flags } }
{
    Met {
        at: MemberAt {
            class,
            index: index as u32,
        },
        flags,
    }
}

// ---- fields

/// Whether a class declares a field that is sought.
pub fn has_field(
    classes: &[ClassDesc],
    index: &MemberIndex,
    class: u32,
    sought: &Sought<'_>,
) -> bool
    ensures { IsIndexOf index.now classes.now →
        result ≡ declares (views classes.now) (field_in (meant sought.now)) class }
{
    field_place(classes, index, class, sought).is_some()
}

/// The first field that is sought and that a class declares.
pub fn field_at(
    classes: &[ClassDesc],
    index: &MemberIndex,
    class: u32,
    sought: &Sought<'_>,
) -> Option<Met>
    requires few { HaveFewMembers classes.now }
    requires indexed { IsIndexOf index.now classes.now }
    ensures met { Meets (views classes.now) fields_of result
        (declared_at (views classes.now) (field_in (meant sought.now)) class) }
    ensures there { IfSome result (λ met. met.at.class < length classes.now) }
{
    match item_at(classes, class as usize) {
        Some(desc) => {
            let place = field_place(classes, index, class, sought);
            field_met(desc, class, place)
        }
        None => None,
    }
}

/// The field of a place, if there is one.
fn field_met(desc: &ClassDesc, class: u32, place: Option<usize>) -> Option<Met>
    requires few { length desc.now.fields < 2 ^ 32 }
    requires within { IfSome place (λ index. index < length desc.now.fields) }
    ensures { MatchOption place (result ≡ None) (λ index. IfSome (slice_get desc.now.fields index)
        (λ f. result ≡ Some (record {
          at = record { class = class; index = index };
          flags = f.flags;
        }))) }
{
    match place {
        Some(index) => Some(met_at(class, index, desc.fields.items()[index].flags)),
        None => None,
    }
}

// ---- constants

fn is_constant_value(attribute: &Attr) -> bool
    ensures { result ≡ is_some (constant_in (out-Attr attribute.now)) }
{
    match attribute {
        Attr::ConstantValue(_) => true,
        _ => false,
    }
}

fn has_constant_value(attributes: &[Attr]) -> bool
    ensures { result ≡ list_any (λ a. is_some (constant_in (out-Attr a))) attributes.now }
{
    attributes.iter().any(|a| is_constant_value(a))
}

fn has_constant(field: &FieldDesc) -> bool
    ensures { result ≡ is_some (first_attribute constant_in field.now.attrs) }
{
    has_constant_value(field.attrs.items())
}

/// Whether a field is final and has a constant (JVMS 4.7.2).
fn is_constant(field: &FieldDesc) -> bool
    ensures { result ≡ holds_constant field.now }
{
    has_flag(FINAL, field.flags) && has_constant(field)
}

fn is_constant_at(fields: &[FieldDesc], place: u32) -> bool
    ensures { result ≡ passes_at holds_constant fields.now place }
{
    match item_at(fields, place as usize) {
        Some(field) => is_constant(field),
        None => false,
    }
}

fn constant_among(fields: &[FieldDesc], places: &[u32]) -> Option<usize>
    ensures { result ≡ position (passes_at holds_constant fields.now) places.now }
{
    places
        .iter()
        .position(|place| is_constant_at(fields, *place))
}

/// The first of some places whose field is final and has a constant.
fn constant_place(fields: &[FieldDesc], places: &[u32]) -> Option<usize>
    ensures { result ≡ find (passes_at holds_constant fields.now) places.now }
{
    place_of(places, constant_among(fields, places))
}

/// The first final field of the name that a class declares with a constant.
pub fn constant_at(
    classes: &[ClassDesc],
    index: &MemberIndex,
    class: u32,
    name: &Text,
) -> Option<Met>
    requires few { HaveFewMembers classes.now }
    requires indexed { IsIndexOf index.now classes.now }
    ensures met { Meets (views classes.now) fields_of result
        (declared_at (views classes.now) (constant_in_class name.now) class) }
    ensures there { IfSome result (λ met. met.at.class < length classes.now) }
{
    match item_at(classes, class as usize) {
        Some(desc) => {
            let named = index.fields_named(classes, class, name);
            let place = constant_place(desc.fields.items(), named);
            field_met(desc, class, place)
        }
        None => None,
    }
}

// ---- names

/// The first field of the name that a class declares.
pub fn field_named_at(
    classes: &[ClassDesc],
    index: &MemberIndex,
    class: u32,
    name: &Text,
) -> Option<Met>
    requires few { HaveFewMembers classes.now }
    requires indexed { IsIndexOf index.now classes.now }
    ensures met { Meets (views classes.now) fields_of result
        (declared_at (views classes.now) (field_named_in name.now) class) }
    ensures there { IfSome result (λ met. met.at.class < length classes.now) }
{
    match item_at(classes, class as usize) {
        Some(desc) => {
            let named = index.fields_named(classes, class, name);
            let place = place_at(named, 0);
            field_met(desc, class, place)
        }
        None => None,
    }
}

// ---- methods

/// The method of a place, if there is one.
fn method_met(desc: &ClassDesc, class: u32, place: Option<usize>) -> Option<Met>
    requires few { length desc.now.methods < 2 ^ 32 }
    requires within { IfSome place (λ index. index < length desc.now.methods) }
    ensures { MatchOption place (result ≡ None) (λ index. IfSome (slice_get desc.now.methods index)
        (λ m. result ≡ Some (record {
          at = record { class = class; index = index };
          flags = m.flags;
        }))) }
{
    match place {
        Some(index) => Some(met_at(class, index, desc.methods.items()[index].flags)),
        None => None,
    }
}

/// Whether a class declares a method that is sought.
pub fn has_method(
    classes: &[ClassDesc],
    index: &MemberIndex,
    class: u32,
    sought: &Sought<'_>,
) -> bool
    ensures { IsIndexOf index.now classes.now →
        result ≡ declares (views classes.now) (method_in (meant sought.now)) class }
{
    method_place(classes, index, class, sought).is_some()
}

/// The first method that is sought and that a class declares.
pub fn method_at(
    classes: &[ClassDesc],
    index: &MemberIndex,
    class: u32,
    sought: &Sought<'_>,
) -> Option<Met>
    requires few { HaveFewMembers classes.now }
    requires indexed { IsIndexOf index.now classes.now }
    ensures met { Meets (views classes.now) methods_of result
        (declared_at (views classes.now) (method_in (meant sought.now)) class) }
    ensures there { IfSome result (λ met. met.at.class < length classes.now) }
{
    match item_at(classes, class as usize) {
        Some(desc) => {
            let place = method_place(classes, index, class, sought);
            method_met(desc, class, place)
        }
        None => None,
    }
}

// ---- what interfaces give

/// Whether a method of an interface is given to those below it.
fn is_given(candidate: &MethodDesc) -> bool
    ensures { result ≡ is_inherited candidate.now }
{
    !has_flag(PRIVATE, candidate.flags) && !has_flag(STATIC, candidate.flags)
}

fn is_given_at(methods: &[MethodDesc], place: u32) -> bool
    ensures { result ≡ passes_at is_inherited methods.now place }
{
    match item_at(methods, place as usize) {
        Some(candidate) => is_given(candidate),
        None => false,
    }
}

fn given_among(methods: &[MethodDesc], places: &[u32]) -> Option<usize>
    ensures { result ≡ position (passes_at is_inherited methods.now) places.now }
{
    places.iter().position(|place| is_given_at(methods, *place))
}

/// The first of some places whose method an interface gives to those below it.
fn given_place(methods: &[MethodDesc], places: &[u32]) -> Option<usize>
    ensures { result ≡ find (passes_at is_inherited methods.now) places.now }
{
    place_of(places, given_among(methods, places))
}

/// The first of some places whose method the class gives to those below it, if it is an interface.
fn interface_place(desc: &ClassDesc, places: &[u32]) -> Option<usize>
    ensures { result ≡ (if has_flag_of 0x0200 desc.now.flags
        then find (passes_at is_inherited desc.now.methods) places.now else None) }
{
    if has_flag(INTERFACE, desc.flags) {
        given_place(desc.methods.items(), places)
    } else {
        None
    }
}

/// Whether a class is an interface that gives a method that is sought.
pub fn has_given(
    classes: &[ClassDesc],
    index: &MemberIndex,
    class: u32,
    sought: &Sought<'_>,
) -> bool
    ensures { IsIndexOf index.now classes.now → result ≡ declares (views classes.now)
        (interface_method_in (meant sought.now)) class }
{
    match item_at(classes, class as usize) {
        Some(desc) => interface_place(desc, method_places(classes, index, class, sought)).is_some(),
        None => false,
    }
}

/// The first method that is sought and that an interface gives.
pub fn given_at(
    classes: &[ClassDesc],
    index: &MemberIndex,
    class: u32,
    sought: &Sought<'_>,
) -> Option<Met>
    requires few { HaveFewMembers classes.now }
    requires indexed { IsIndexOf index.now classes.now }
    ensures met { Meets (views classes.now) methods_of result
        (declared_at (views classes.now) (interface_method_in (meant sought.now)) class) }
    ensures there { IfSome result (λ met. met.at.class < length classes.now) }
{
    match item_at(classes, class as usize) {
        Some(desc) => {
            let place = interface_place(desc, method_places(classes, index, class, sought));
            method_met(desc, class, place)
        }
        None => None,
    }
}

/// Whether the method that an interface gives is not abstract.
pub fn is_concrete(
    classes: &[ClassDesc],
    index: &MemberIndex,
    class: u32,
    sought: &Sought<'_>,
) -> bool
    requires few { HaveFewMembers classes.now }
    requires indexed { IsIndexOf index.now classes.now }
    ensures { result ≡ is_concrete_of (views classes.now) (meant sought.now) class }
{
    match given_at(classes, index, class, sought) {
        Some(met) => !has_flag(ABSTRACT, met.flags),
        None => false,
    }
}

// ---- what interfaces have of java/lang/Object

/// Whether interfaces have a method of java/lang/Object (JVMS 5.4.3.4).
fn is_shared(method: &MethodDesc) -> bool
    ensures { result ≡ is_shared_method method.now }
{
    has_flag(PUBLIC, method.flags) && !has_flag(STATIC, method.flags)
}

fn is_shared_at(methods: &[MethodDesc], place: u32) -> bool
    ensures { result ≡ passes_at is_shared_method methods.now place }
{
    match item_at(methods, place as usize) {
        Some(method) => is_shared(method),
        None => false,
    }
}

fn shared_among(methods: &[MethodDesc], places: &[u32]) -> Option<usize>
    ensures { result ≡ position (passes_at is_shared_method methods.now) places.now }
{
    places
        .iter()
        .position(|place| is_shared_at(methods, *place))
}

/// The first of some places whose method interfaces have of java/lang/Object.
fn shared_place(methods: &[MethodDesc], places: &[u32]) -> Option<usize>
    ensures { result ≡ find (passes_at is_shared_method methods.now) places.now }
{
    place_of(places, shared_among(methods, places))
}

/// The first method that is sought and that interfaces have of a class.
pub fn object_method_at(
    classes: &[ClassDesc],
    index: &MemberIndex,
    class: u32,
    sought: &Sought<'_>,
) -> Option<Met>
    requires few { HaveFewMembers classes.now }
    requires indexed { IsIndexOf index.now classes.now }
    ensures met { Meets (views classes.now) methods_of result
        (declared_at (views classes.now) (object_method_in (meant sought.now)) class) }
    ensures there { IfSome result (λ met. met.at.class < length classes.now) }
{
    match item_at(classes, class as usize) {
        Some(desc) => {
            let places = method_places(classes, index, class, sought);
            let place = shared_place(desc.methods.items(), places);
            method_met(desc, class, place)
        }
        None => None,
    }
}

/// The same of a class that may not be there.
pub fn object_method_of(
    classes: &[ClassDesc],
    index: &MemberIndex,
    object: Option<u32>,
    sought: &Sought<'_>,
) -> Option<Met>
    requires few { HaveFewMembers classes.now }
    requires indexed { IsIndexOf index.now classes.now }
    ensures met { Meets (views classes.now) methods_of result (option_and_then
        (declared_at (views classes.now) (object_method_in (meant sought.now))) object) }
    ensures there { IfSome result (λ met. met.at.class < length classes.now) }
{
    match object {
        Some(class) => object_method_at(classes, index, class, sought),
        None => None,
    }
}
