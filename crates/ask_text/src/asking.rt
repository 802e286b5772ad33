//! The lines of what a world answers.
ghost use Rattle.std.specs.Prelude.{◌≡◌, IfOk};
ghost use Rattle.class_views.specs.Query.{ask, ClassQuery, SupersQuery, FieldQuery, MethodQuery};
ghost use Rattle.class_views.specs.Query.{InterfaceMethodQuery, ConstantQuery, AnnotationsQuery};
ghost use Rattle.client_view.specs.Numbers.{views};
ghost use Rattle.client_view.specs.Replies.{client_seen, part_seen};
ghost use Rattle.ask_text.specs.Lines.{line_of};
ghost use Rattle.ask_text.specs.Queries.{query_of, part_of, sought};

use crate::line::answer_line;
use crate::replies::{
    annotations_answer, class_answer, constant_answer, field_answer, method_answer,
};
use client_view::{Client, ClientWorld, Part};
use hdr_core::{Memory, Text};
use questions::{MemberRef, NamedField, Part as AskedPart, Query, Question};
use std::alloc::Global;

/// The line that answers a question of a client about the classes of a world.
pub fn ask_line(
    alloc: Global,
    world: &mut ClientWorld,
    client: &Client,
    question: &Question<'_>,
) -> Result<Vec<u8>, Memory>
    ensures line { IfOk result (λ line. line.items
        ≡ line_of question.now.kind question.now.value.now
        (ask (views world.old) (client_seen client.now) (query_of question.now.query))) }
    ensures kept { world.new ≡ world.old }
{
    match &question.query {
        Query::Type(class) => type_line(alloc, world, client, question, class),
        Query::Supers(class) => supers_line(alloc, world, client, question, class),
        Query::Field(field) => field_line(alloc, world, client, question, field),
        Query::Method(method) => method_line(alloc, world, client, question, method),
        Query::InterfaceMethod(method) => {
            interface_method_line(alloc, world, client, question, method)
        }
        Query::Constant(field) => constant_line(alloc, world, client, question, field),
        Query::Annotations { class, part } => {
            annotations_line(alloc, world, client, question, class, part)
        }
    }
}

fn type_line(
    alloc: Global,
    world: &ClientWorld,
    client: &Client,
    question: &Question<'_>,
    class: &Text,
) -> Result<Vec<u8>, Memory>
    ensures { IfOk result (λ line. line.items
        ≡ line_of question.now.kind question.now.value.now
        (ask (views world.now) (client_seen client.now) (ClassQuery class.now))) }
{
    let reply = world.class_at(client, class);
    let answer = class_answer(world, reply);
    answer_line(alloc, question.kind, question.value, answer)
}

fn supers_line(
    alloc: Global,
    world: &ClientWorld,
    client: &Client,
    question: &Question<'_>,
    class: &Text,
) -> Result<Vec<u8>, Memory>
    ensures { IfOk result (λ line. line.items
        ≡ line_of question.now.kind question.now.value.now
        (ask (views world.now) (client_seen client.now) (SupersQuery class.now))) }
{
    let reply = world.supers(client, class);
    let answer = class_answer(world, reply);
    answer_line(alloc, question.kind, question.value, answer)
}

fn field_line(
    alloc: Global,
    world: &mut ClientWorld,
    client: &Client,
    question: &Question<'_>,
    field: &MemberRef,
) -> Result<Vec<u8>, Memory>
    ensures line { IfOk result (λ line. line.items
        ≡ line_of question.now.kind question.now.value.now
        (ask (views world.old) (client_seen client.now)
        (FieldQuery field.now.class (sought field.now)))) }
    ensures kept { world.new ≡ world.old }
{
    let reply = world.field(client, &field.class, &field.name, &field.descriptor);
    let answer = field_answer(world, reply);
    answer_line(alloc, question.kind, question.value, answer)
}

fn method_line(
    alloc: Global,
    world: &mut ClientWorld,
    client: &Client,
    question: &Question<'_>,
    method: &MemberRef,
) -> Result<Vec<u8>, Memory>
    ensures line { IfOk result (λ line. line.items
        ≡ line_of question.now.kind question.now.value.now
        (ask (views world.old) (client_seen client.now)
        (MethodQuery method.now.class (sought method.now)))) }
    ensures kept { world.new ≡ world.old }
{
    let reply = world.method(client, &method.class, &method.name, &method.descriptor);
    let answer = method_answer(world, reply);
    answer_line(alloc, question.kind, question.value, answer)
}

fn interface_method_line(
    alloc: Global,
    world: &mut ClientWorld,
    client: &Client,
    question: &Question<'_>,
    method: &MemberRef,
) -> Result<Vec<u8>, Memory>
    ensures line { IfOk result (λ line. line.items
        ≡ line_of question.now.kind question.now.value.now
        (ask (views world.old) (client_seen client.now)
        (InterfaceMethodQuery method.now.class (sought method.now)))) }
    ensures kept { world.new ≡ world.old }
{
    let reply = world.interface_method(client, &method.class, &method.name, &method.descriptor);
    let answer = method_answer(world, reply);
    answer_line(alloc, question.kind, question.value, answer)
}

fn constant_line(
    alloc: Global,
    world: &mut ClientWorld,
    client: &Client,
    question: &Question<'_>,
    field: &NamedField,
) -> Result<Vec<u8>, Memory>
    ensures line { IfOk result (λ line. line.items
        ≡ line_of question.now.kind question.now.value.now
        (ask (views world.old) (client_seen client.now)
        (ConstantQuery field.now.class field.now.name))) }
    ensures kept { world.new ≡ world.old }
{
    let reply = world.constant(client, &field.class, &field.name);
    let answer = constant_answer(world, &field.class, &field.name, reply);
    answer_line(alloc, question.kind, question.value, answer)
}

fn annotations_line(
    alloc: Global,
    world: &mut ClientWorld,
    client: &Client,
    question: &Question<'_>,
    class: &Text,
    asked: &AskedPart,
) -> Result<Vec<u8>, Memory>
    ensures line { IfOk result (λ line. line.items
        ≡ line_of question.now.kind question.now.value.now
        (ask (views world.old) (client_seen client.now)
        (AnnotationsQuery class.now (part_of asked.now)))) }
    ensures kept { world.new ≡ world.old }
{
    let part = client_part(alloc, asked)?;
    let reply = world.annotations(client, class, &part);
    let answer = annotations_answer(world, class, &part, reply);
    answer_line(alloc, question.kind, question.value, answer)
}

/// The part as client_view has it.
fn client_part(alloc: Global, asked: &AskedPart) -> Result<Part, Memory>
    ensures { IfOk result (λ part. part_seen part ≡ part_of asked.now) }
{
    match asked {
        AskedPart::Whole => Ok(Part::Whole),
        AskedPart::FieldPart(name) => Ok(Part::FieldPart(name.copy(alloc)?)),
        AskedPart::MethodPart { name, descriptor } => {
            let name = name.copy(alloc)?;
            Ok(Part::MethodPart {
                name,
                descriptor: descriptor.copy(alloc)?,
            })
        }
    }
}
