//! The command `ask`: class files and questions to the lines that answer these.
ghost use Rattle.std.specs.Prelude.{◌≡◌, ◌<◌, ◌^◌, ◌++◌, [], map, length, IfOk, OnOk, IfErr};
ghost use Rattle.std.specs.Prelude.{IfSome};
ghost use Rattle.client_view.specs.Indexed.{HaveFewMembers};
ghost use Rattle.client_view.specs.Numbers.{views, AreApart};
ghost use Rattle.client_view.specs.Replies.{client_seen};
ghost use Rattle.questions.specs.Asked.{ask_seen, question_seen};
ghost use Rattle.used_files.specs.Stops.{IsFilled, StopsOnly, FaultRises, IsRootOrUsed};
ghost use Rattle.used_files.specs.declared.kinds.FileKinds.TheVariants.{Classes};
ghost use Rattle.file_contents.specs.Contents.{classes, class_in, items_of};
ghost use Rattle.file_contents.specs.Phases.{twice};
ghost use Rattle.file_contents.specs.Valid.{AreValid};
ghost use Rattle.commands.specs.Answers.{answer_to, answers, files_asked};
ghost use Rattle.commands.specs.Outcome.{asking, told, diagnosed};
ghost use Rattle.commands.specs.Phases.{first_phase};

use ask_text::ask_line;
use class_desc::ClassDesc;
use client_view::{Client, ClientWorld, ViewErr};
use file_contents::{Content, Item, Limits, declared_twice, read_items, stop_at};
use hdr_core::{Files, Memory, Text, sort_diags};
use questions::{Ask, Question};
use std::alloc::Global;
use used_files::{FileKinds, Stop};

/// Puts the class behind the others, if the content is one.
fn push_class(content: Content, list: &mut Vec<ClassDesc>) -> Result<(), Memory>
    ensures { OnOk result (list.new.items ≡ list.old.items ++ class_in content) }
{
    match content {
        Content::Class(class) => list.push(class)?,
        Content::Module {
            below: _,
            name: _,
            bytes: _,
        } => {}
    }
    Ok(())
}

/// The classes among the items.
fn classes_among(alloc: Global, items: Vec<Item>) -> Result<Vec<ClassDesc>, Memory>
    ensures { IfOk result (λ list. list.items ≡ classes items.items) }
{
    let mut list = Vec::with_capacity(alloc, items.len())?;
    for item in items {
        push_class(item.content, &mut list)?;
    }
    Ok(list)
}

/// A world of classes that have different names.
fn world_of(alloc: Global, classes: Vec<ClassDesc>) -> Result<ClientWorld, Memory>
    requires few { length classes.items < 2 ^ 32 }
    requires members { HaveFewMembers classes.items }
    requires apart { AreApart (views classes.items) }
    ensures { IfOk result (λ world. world ≡ classes.items) }
{
    match ClientWorld::of(alloc, classes) {
        Ok(world) => Ok(world),
        Err(
            ViewErr::Repeated {
                first: _,
                second: _,
            },
        ) => unreachable!(),
        Err(ViewErr::Memory) => Err(Memory),
    }
}

/// The lines of the questions over the classes of a world.
fn answer_each(
    alloc: Global,
    world: &mut ClientWorld,
    client: &Client,
    questions: &[Question<'_>],
) -> Result<Vec<Text>, Memory>
    ensures { IfOk result (λ lines. lines.items
        ≡ map (λ q. answer_to (views world.old) (client_seen client.now) (question_seen q))
        questions.now) }
{
    let mut lines = Vec::with_capacity(alloc, questions.len())?;
    for question in questions {
        let line = ask_line(alloc, world, client, question)?;
        lines.push(Text::from(line))?;
    }
    Ok(lines)
}

/// The lines that answer the questions over classes that have different names.
fn answer_over(alloc: Global, asked: Ask<'_>, classes: Vec<ClassDesc>) -> Result<Vec<Text>, Memory>
    requires few { length classes.items < 2 ^ 32 }
    requires members { HaveFewMembers classes.items }
    requires apart { AreApart (views classes.items) }
    ensures { IfOk result (λ lines.
        lines.items ≡ answers (ask_seen asked.entry) (views classes.items)) }
{
    let mut world = world_of(alloc, classes)?;
    let Ask {
        classes: _,
        package,
        super_name,
        questions,
    } = asked;
    let client = Client {
        package,
        super_name,
    };
    let lines = answer_each(alloc, &mut world, &client, &questions)?;
    Ok(lines)
}

/// The lines that answer the questions over the classes among the items, if no two of these have
/// one name.
fn answer_items(alloc: Global, asked: Ask<'_>, items: Vec<Item>) -> Result<Vec<Text>, Stop>
    requires few { length items.items < 2 ^ 32 }
    requires valid { AreValid items.items }
    ensures lines { IfOk result (λ lines.
        lines.items ≡ answers (ask_seen asked.entry) (views (classes items.items))) }
    ensures fine { IfOk result (λ _. twice items.items ≡ []) }
    ensures stops { IfErr result (λ stop. StopsOnly stop (λ _. ⊥)
        (λ list. IsFilled list × (twice items.items ≡ list))) }
{
    let repeated = declared_twice(alloc, &items)?;
    stop_at(repeated)?;
    let classes = classes_among(alloc, items)?;
    let lines = answer_over(alloc, asked, classes)?;
    Ok(lines)
}

/// The lines that answer the questions, or the diagnostics of the first phase that has one.
fn answer_roots<F: Files>(
    alloc: Global,
    limits: Limits,
    asked: Ask<'_>,
    files: &mut F,
) -> Result<Vec<Text>, Stop>
    ensures lines { IfOk result (λ lines. IfSome (F.held files.old) (λ held. lines.items
        ≡ answers (ask_seen asked.entry)
        (views (classes (items_of (files_asked (ask_seen asked.entry) held)))))) }
    ensures fine { IfOk result (λ _. IfSome (F.held files.old) (λ held.
        first_phase limits twice (files_asked (ask_seen asked.entry) held) ≡ [])) }
    ensures valid { IfOk result (λ _. IfSome (F.held files.old) (λ held.
        AreValid (items_of (files_asked (ask_seen asked.entry) held)))) }
    ensures stops { IfErr result (λ stop. StopsOnly stop
        (λ path. IfSome (F.held files.old)
        (λ held. IsRootOrUsed Classes held (ask_seen asked.entry).classes path))
        (λ list. IsFilled list × IfSome (F.held files.old) (λ held.
        first_phase limits twice (files_asked (ask_seen asked.entry) held) ≡ list))) }
    ensures faults { FaultRises result (F.faults files.old) (F.faults files.new) }
    ensures held { F.held files.new ≡ F.held files.old }
{
    let items = read_items(alloc, limits, FileKinds::Classes, &asked.classes, files)?;
    answer_items(alloc, asked, items)
}

/// The command `ask` within limits: the lines that answer the questions over the classes that lie
/// under the roots, in their order, or the diagnostics of the first phase that has one, in theirs.
pub fn answer_questions<F: Files>(
    alloc: Global,
    limits: Limits,
    asked: Ask<'_>,
    files: &mut F,
) -> Result<Vec<Text>, Stop>
    ensures lines { IfOk result (λ lines. IfSome (F.held files.old) (λ held.
        asking limits (ask_seen asked.entry) (files_asked (ask_seen asked.entry) held)
        ≡ told lines.items)) }
    ensures valid { IfOk result (λ _. IfSome (F.held files.old) (λ held.
        AreValid (items_of (files_asked (ask_seen asked.entry) held)))) }
    ensures stops { IfErr result (λ stop. StopsOnly stop
        (λ path. IfSome (F.held files.old)
        (λ held. IsRootOrUsed Classes held (ask_seen asked.entry).classes path))
        (λ list. IfSome (F.held files.old) (λ held.
        asking limits (ask_seen asked.entry) (files_asked (ask_seen asked.entry) held)
        ≡ diagnosed list))) }
    ensures faults { FaultRises result (F.faults files.old) (F.faults files.new) }
    ensures held { F.held files.new ≡ F.held files.old }
{
    match answer_roots(alloc, limits, asked, files) {
        Ok(lines) => Ok(lines),
        Err(Stop::Diagnosed(list)) => Err(Stop::Diagnosed(sort_diags(alloc, list)?)),
        Err(Stop::Fault(path)) => Err(Stop::Fault(path)),
        Err(Stop::Memory) => Err(Stop::Memory),
    }
}
