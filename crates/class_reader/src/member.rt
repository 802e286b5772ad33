ghost use Rattle.std.specs.Prelude.{◌≡◌, [], ◌∷◌, ◌++◌, IfOk, OnOk};
ghost use Rattle.pool_reader.specs.Reading.{Answers, Gives};
ghost use Rattle.class_reader.specs.Reading.{unseen, HaveSame};
ghost use Rattle.class_reader.specs.Reading.{place_of, name_form, descriptor_form};
ghost use Rattle.class_reader.specs.Reading.{signed_at, member_at, members_at, as_field};
ghost use Rattle.class_reader.specs.Reading.{as_method, fields_at, methods_at};

use attribute_reader::{Form, attributes};
use class_desc::{Attr, FieldDesc, MethodDesc, Place};
use hdr_core::{List, Text};
use pool_reader::{ClassKind, Pool, ReadErr, Reader};
use std::alloc::Global;
use std::collections::BTreeSet;
use std::marker::Model;

/// The least bytes of a member in a file: flags, name, descriptor and a count of attributes.
const LEAST_MEMBER: usize = 8;

/// What a member is.
#[derive(Clone, Copy)]
pub enum MemberKind {
    Field,
    Method,
}

impl MemberKind {
    fn place(self) -> Place
        ensures { result ≡ place_of self }
    {
        match self {
            MemberKind::Field => Place::Field,
            MemberKind::Method => Place::Method,
        }
    }

    fn name(self) -> Form
        ensures { result ≡ name_form self }
    {
        match self {
            MemberKind::Field => Form::FieldName,
            MemberKind::Method => Form::MethodName,
        }
    }

    fn descriptor(self, flags: u16) -> Form
        ensures { result ≡ descriptor_form self flags }
    {
        match self {
            MemberKind::Field => Form::FieldDescriptor,
            MemberKind::Method => Form::MethodDescriptor(flags),
        }
    }
}

/// A field or a method.
#[derive(Drop)]
pub struct Member {
    pub flags: u16,
    pub name: Text,
    pub descriptor: Text,
    pub attrs: List<Attr>,
}

/// What a description has of a member: a field or a method.
pub trait FromMember: Drop {
    ghost use Rattle.class_reader.specs.declared.member.Member.{Member};

    ghost described: { Member → Self };

    fn from_member(member: Member) -> Self
        ensures { result ≡ described member };
}

impl FromMember for FieldDesc {
    ghost described = { as_field };

    fn from_member(member: Member) -> FieldDesc {
        FieldDesc {
            flags: member.flags,
            name: member.name,
            descriptor: member.descriptor,
            attrs: member.attrs,
        }
    }
}

impl FromMember for MethodDesc {
    ghost described = { as_method };

    fn from_member(member: Member) -> MethodDesc {
        MethodDesc {
            flags: member.flags,
            name: member.name,
            descriptor: member.descriptor,
            attrs: member.attrs,
        }
    }
}

/// What tells the members of a class apart.
#[derive(Clone, Copy, PartialEq, Eq, PartialOrd, Ord)]
pub struct MemberKey<'a> {
    name: &'a [u8],
    descriptor: &'a [u8],
}

/// The names and descriptors of the members so far, in their order: a table by hashes would be slow
/// for names that are picked so that theirs collide.
#[derive(Drop)]
pub struct SeenMembers<'a> {
    keys: BTreeSet<MemberKey<'a>>,
}

impl<'a> Model for SeenMembers<'a> {
    ghost use Rattle.std.specs.Prelude.{List, map};
    ghost use Rattle.class_desc.specs.ClassFile.{Key};
    ghost use Rattle.class_reader.specs.Seen.{key_seen};

    ghost Value = { List Key };

    ghost view = { λ seen. map key_seen seen.keys.keys };
}

impl<'a> SeenMembers<'a> {
    pub fn new(alloc: Global) -> SeenMembers<'a>
        ensures { result ≡ [] }
    {
        SeenMembers {
            keys: BTreeSet::new(alloc),
        }
    }

    /// Adds a member, whose name stands at this offset. It is a fault where there is one of its
    /// name and descriptor.
    pub fn add(&mut self, at: u32, name: &'a [u8], descriptor: &'a [u8]) -> Result<(), ReadErr>
        ensures unseen { Answers (λ _. tt) result
            (unseen at (name.now, descriptor.now) self.old) }
        ensures seen { OnOk result
            (HaveSame self.new (self.old ++ (name.now, descriptor.now) ∷ [])) }
    {
        if self.keys.insert(MemberKey { name, descriptor })? {
            Ok(())
        } else {
            Err(ClassKind::F9.at(at))
        }
    }
}

/// The flags, the name and the descriptor of a member that is like none before it.
#[tactic(auto, unfolding(crate::specs::Reading::signed_at))]
fn signed<'a>(
    reader: &mut Reader<'_>,
    pool: &Pool<'a>,
    kind: MemberKind,
    seen: &mut SeenMembers<'a>,
) -> Result<(u16, &'a [u8], &'a [u8]), ReadErr>
    ensures signed { Gives (λ m. (m.0, m.1.now, m.2.now)) result reader.new
        (signed_at pool.now kind seen.old reader.old) }
    ensures seen { IfOk result
        (λ m. HaveSame seen.new (seen.old ++ (m.1.now, m.2.now) ∷ [])) }
{
    let flags = reader.u16()?;
    let name_at = reader.offset();
    let name = kind.name().text(reader, pool)?;
    let descriptor = kind.descriptor(flags).text(reader, pool)?;
    seen.add(name_at, name, descriptor)?;
    Ok((flags, name, descriptor))
}

/// A member that is like none before it.
#[tactic(auto, unfolding(crate::specs::Reading::member_at))]
fn next_member<'a>(
    reader: &mut Reader<'_>,
    alloc: Global,
    pool: &Pool<'a>,
    kind: MemberKind,
    seen: &mut SeenMembers<'a>,
) -> Result<Member, ReadErr>
    ensures member { Gives (λ m. m) result reader.new
        (member_at pool.now kind seen.old reader.old) }
    ensures seen { IfOk result
        (λ m. HaveSame seen.new (seen.old ++ (m.name, m.descriptor) ∷ [])) }
{
    let (flags, name, descriptor) = signed(reader, pool, kind, seen)?;
    let attrs = attributes(reader, alloc, pool, kind.place(), descriptor)?;
    Ok(Member {
        flags,
        name: Text::of(alloc, name)?,
        descriptor: Text::of(alloc, descriptor)?,
        attrs,
    })
}

/// As many members as that, of which none is like another.
fn member_list<T: FromMember>(
    reader: &mut Reader<'_>,
    alloc: Global,
    pool: &Pool<'_>,
    kind: MemberKind,
    count: u16,
) -> Result<List<T>, ReadErr>
    ensures { Gives (λ members. members) result reader.new
        (members_at T.described (member_at pool.now kind) [] count reader.old) }
{
    let room = usize::from(count).min(reader.len() / LEAST_MEMBER);
    let mut seen = SeenMembers::new(alloc);
    let mut members = Vec::with_capacity(alloc, room)?;
    for _ in 0..count {
        let member = next_member(reader, alloc, pool, kind, &mut seen)?;
        members.push(T::from_member(member))?;
    }
    Ok(List::of(members))
}

/// The fields, their count first.
#[tactic(auto, unfolding(crate::specs::Reading::fields_at))]
pub fn fields(
    reader: &mut Reader<'_>,
    alloc: Global,
    pool: &Pool<'_>,
) -> Result<List<FieldDesc>, ReadErr>
    ensures { Gives (λ fields. fields) result reader.new (fields_at pool.now reader.old) }
{
    let count = reader.u16()?;
    member_list(reader, alloc, pool, MemberKind::Field, count)
}

/// The methods, their count first.
#[tactic(auto, unfolding(crate::specs::Reading::methods_at))]
pub fn methods(
    reader: &mut Reader<'_>,
    alloc: Global,
    pool: &Pool<'_>,
) -> Result<List<MethodDesc>, ReadErr>
    ensures { Gives (λ methods. methods) result reader.new (methods_at pool.now reader.old) }
{
    let count = reader.u16()?;
    member_list(reader, alloc, pool, MemberKind::Method, count)
}
