//! The answers for which the replies of a world stand.
ghost use Rattle.std.specs.Prelude.{◌≡◌, ◌<◌, Some, length, slice_get};
ghost use Rattle.class_views.specs.View.{View};
ghost use Rattle.class_views.specs.Query.{Answer as AnswerOf};
ghost use Rattle.client_view.specs.Numbers.{views};
ghost use Rattle.client_view.specs.Replies.{Says, IsClassFound, IsMemberFound, fields_of};
ghost use Rattle.client_view.specs.Replies.{methods_of, IsConstantFound, IsAnnotationsFound};
ghost use Rattle.client_view.specs.Replies.{part_seen};
ghost use Rattle.ask_text.specs.Replies.{IsSaid, SaysRefused, IsRefused};
ghost use Rattle.ask_text.specs.Seen.{answer_seen};

use crate::answer::{Answer, Finding};
use crate::declared::{attributes, constant};
use client_view::{ClientWorld, MemberAt, Part, Reply};
use hdr_core::Text;

/// The name of a class.
fn name_of(world: &ClientWorld, class: u32) -> &Text
    requires { class < length world.now }
    ensures { (c : View) → slice_get (views world.now) class ≡ Some c → result.now ≡ c.name }
{
    &world.desc(class).name
}

/// The answer of a reply that finds nothing.
fn refused<'a, T: Copy>(world: &'a ClientWorld, reply: Reply<T>) -> Answer<'a>
    requires { IsRefused (views world.now) reply }
    ensures { (answer : AnswerOf) → SaysRefused (views world.now) reply answer →
        answer_seen result ≡ answer }
{
    match reply {
        Reply::Found(_) => unreachable!(),
        Reply::NotFound => Answer::NotFound,
        Reply::NotAccessible { declarer } => Answer::NotAccessible(name_of(world, declarer)),
        Reply::Ambiguous { first, second } => {
            Answer::Ambiguous(name_of(world, first), name_of(world, second))
        }
        Reply::WrongKind => Answer::WrongKind,
        Reply::Cycle { at } => Answer::Cycle(name_of(world, at)),
    }
}

/// What a question about a class or its supertypes comes to.
pub fn class_answer(world: &ClientWorld, reply: Reply<u32>) -> Answer<'_>
    requires { IsSaid (views world.now) (IsClassFound (views world.now)) reply }
    ensures { (answer : AnswerOf) →
        Says (views world.now) (IsClassFound (views world.now)) reply answer →
        answer_seen result ≡ answer }
{
    match reply {
        Reply::Found(class) => Answer::Found(Finding::Class(world.desc(class))),
        other => refused(world, other),
    }
}

/// What a question about a field comes to.
pub fn field_answer(world: &ClientWorld, reply: Reply<MemberAt>) -> Answer<'_>
    requires { IsSaid (views world.now) (IsMemberFound (views world.now) fields_of) reply }
    ensures { (answer : AnswerOf) →
        Says (views world.now) (IsMemberFound (views world.now) fields_of) reply answer →
        answer_seen result ≡ answer }
{
    match reply {
        Reply::Found(at) => {
            let class = world.desc(at.class);
            Answer::Found(Finding::Field {
                declarer: &class.name,
                field: &class.fields.items()[at.index as usize],
            })
        }
        other => refused(world, other),
    }
}

/// What a question about a method comes to.
pub fn method_answer(world: &ClientWorld, reply: Reply<MemberAt>) -> Answer<'_>
    requires { IsSaid (views world.now) (IsMemberFound (views world.now) methods_of) reply }
    ensures { (answer : AnswerOf) →
        Says (views world.now) (IsMemberFound (views world.now) methods_of) reply answer →
        answer_seen result ≡ answer }
{
    match reply {
        Reply::Found(at) => {
            let class = world.desc(at.class);
            Answer::Found(Finding::Method {
                declarer: &class.name,
                method: &class.methods.items()[at.index as usize],
            })
        }
        other => refused(world, other),
    }
}

/// What a question about the constant of a field comes to.
pub fn constant_answer<'a>(
    world: &'a ClientWorld,
    class: &Text,
    name: &Text,
    reply: Reply<MemberAt>,
) -> Answer<'a>
    requires { IsSaid (views world.now)
        (IsConstantFound (views world.now) class.now name.now) reply }
    ensures { (answer : AnswerOf) →
        Says (views world.now) (IsConstantFound (views world.now) class.now name.now)
        reply answer → answer_seen result ≡ answer }
{
    match reply {
        Reply::Found(at) => {
            let class = world.desc(at.class);
            let field = &class.fields.items()[at.index as usize];
            match constant(field.attrs.items()) {
                Some(value) => Answer::Found(Finding::Constant(value)),
                None => unreachable!(),
            }
        }
        other => refused(world, other),
    }
}

/// What a question about the annotations of a part of a class comes to.
pub fn annotations_answer<'a>(
    world: &'a ClientWorld,
    class: &Text,
    part: &Part,
    reply: Reply<u32>,
) -> Answer<'a>
    requires { IsSaid (views world.now)
        (IsAnnotationsFound (views world.now) class.now (part_seen part.now)) reply }
    ensures { (answer : AnswerOf) →
        Says (views world.now)
        (IsAnnotationsFound (views world.now) class.now (part_seen part.now))
        reply answer → answer_seen result ≡ answer }
{
    match reply {
        Reply::Found(number) => match attributes(world.desc(number), part) {
            Some(attributes) => Answer::Found(Finding::Annotations(attributes)),
            None => unreachable!(),
        },
        other => refused(world, other),
    }
}
