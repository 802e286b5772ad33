//! What members are told by, in the order of the bytes.
ghost use Rattle.std.specs.Prelude.{◌≡◌, [], map, length};
ghost use Rattle.class_desc.specs.ClassFile.{field_key, method_key};
ghost use Rattle.member_index.specs.Order.{meant, key_cmp, key_at, keys_of, name_key};

use crate::kind::Kind;
use class_desc::{ClassDesc, FieldDesc, MethodDesc};
use std::cmp::Ordering;

/// A name and a descriptor. That of a name alone is empty.
#[derive(Clone, Copy)]
pub struct MemberKey<'a> {
    pub name: &'a [u8],
    pub descriptor: &'a [u8],
}

/// The key of no member.
fn no_key() -> MemberKey<'static>
    ensures { meant result ≡ ([], []) }
{
    MemberKey {
        name: &[],
        descriptor: &[],
    }
}

/// By name, then by descriptor.
pub fn compare(one: &MemberKey<'_>, other: &MemberKey<'_>) -> Ordering
    ensures { result ≡ key_cmp (meant one.now) (meant other.now) }
{
    match one.name.cmp(other.name) {
        Ordering::Equal => one.descriptor.cmp(other.descriptor),
        unequal => unequal,
    }
}

/// The name and descriptor of the field at a place.
fn key_of_field(fields: &[FieldDesc], place: usize) -> MemberKey<'_>
    ensures { meant result ≡ key_at (map field_key fields.now) place }
{
    match fields.get(place) {
        Some(field) => MemberKey {
            name: field.name.bytes(),
            descriptor: field.descriptor.bytes(),
        },
        None => no_key(),
    }
}

/// The name of the field at a place.
fn key_of_name(fields: &[FieldDesc], place: usize) -> MemberKey<'_>
    ensures { meant result ≡ key_at (map name_key fields.now) place }
{
    match fields.get(place) {
        Some(field) => MemberKey {
            name: field.name.bytes(),
            descriptor: &[],
        },
        None => no_key(),
    }
}

/// The name and descriptor of the method at a place.
fn key_of_method(methods: &[MethodDesc], place: usize) -> MemberKey<'_>
    ensures { meant result ≡ key_at (map method_key methods.now) place }
{
    match methods.get(place) {
        Some(method) => MemberKey {
            name: method.name.bytes(),
            descriptor: method.descriptor.bytes(),
        },
        None => no_key(),
    }
}

/// What the member at a place is told by.
pub fn key_of(class: &ClassDesc, kind: Kind, place: u32) -> MemberKey<'_>
    ensures { meant result ≡ key_at (keys_of kind class.now) place }
{
    match kind {
        Kind::Fields => key_of_field(class.fields.items(), place as usize),
        Kind::Names => key_of_name(class.fields.items(), place as usize),
        Kind::Methods => key_of_method(class.methods.items(), place as usize),
    }
}

/// How many members there are.
pub fn count(class: &ClassDesc, kind: Kind) -> usize
    ensures { result ≡ length (keys_of kind class.now) }
{
    match kind {
        Kind::Fields | Kind::Names => class.fields.items().len(),
        Kind::Methods => class.methods.items().len(),
    }
}
