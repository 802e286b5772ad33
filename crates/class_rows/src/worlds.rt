//! What clients find in the classes of a world.
ghost use Rattle.std.specs.Prelude.{◌≡◌, true};
ghost use Rattle.client_view.specs.Indexed.{HaveFewMembers};

use crate::classes::classes_of;
use crate::words::{add_number, both};
use ask_text::ask_line;
use class_desc::ClassDesc;
use client_view::{Client, ClientWorld, ViewErr};
use questions::{Ask, Question, ask_of};
use rows::{Asked, RowErr};
use std::alloc::{AllocError, Global};

/// Two classes of one name, by their places.
#[derive(Clone, Copy)]
struct Repeat {
    first: u32,
    second: u32,
}

fn have_few_members(classes: &[ClassDesc]) -> bool
    ensures { result ≡ true → HaveFewMembers classes.now }
{
    for class in classes {
        if class.fields.len() > 100 || class.methods.len() > 100 {
            return false;
        }
    }
    true
}

/// The world of these classes, or two that have one name.
fn world_of(alloc: Global, classes: Vec<ClassDesc>) -> Result<Result<ClientWorld, Repeat>, RowErr> {
    if classes.len() < 100 && have_few_members(&classes) {
        match ClientWorld::of(alloc, classes) {
            Ok(world) => Ok(Ok(world)),
            Err(ViewErr::Repeated { first, second }) => Ok(Err(Repeat { first, second })),
            Err(ViewErr::Memory) => Err(RowErr::Memory),
        }
    } else {
        Err(RowErr::NoSubject)
    }
}

/// The places of two classes of one name, or `none`.
pub fn repeat_of(alloc: Global, classes: Vec<ClassDesc>) -> Result<Vec<u8>, RowErr> {
    let mut told = Vec::new(alloc);
    match world_of(alloc, classes)? {
        Ok(_) => told.extend_from_slice(b"none")?,
        Err(repeat) => {
            add_number(&mut told, u64::from(repeat.first))?;
            add_number(&mut told, u64::from(repeat.second))?;
        }
    }
    Ok(told)
}

/// The words behind `ask`. Where the classes lie isn't looked at.
fn words_of(alloc: Global, words: &str) -> Result<Vec<String>, AllocError> {
    let mut all = Vec::new(alloc);
    for word in "--classes x".split(' ').chain(words.split(' ')) {
        all.push(String::from_str(alloc, word)?)?;
    }
    Ok(all)
}

/// The line that answers a question, without its end. It is asked twice, since marks are to be
/// clean behind it.
fn line_in(
    alloc: Global,
    world: &mut ClientWorld,
    client: &Client,
    question: &Question<'_>,
) -> Result<Vec<u8>, RowErr> {
    let mut first = ask_line(alloc, world, client, question)?;
    first.pop();
    let mut second = ask_line(alloc, world, client, question)?;
    second.pop();
    both(first, &second)
}

/// The line that answers `CLASSES ? WORDS`, the words being those behind `ask`.
pub fn line_of(alloc: Global, asked: Asked<'_>) -> Result<Vec<u8>, RowErr> {
    let Some((classes, words)) = asked.input.split_once(" ? ") else {
        return Err(RowErr::NoRow);
    };
    let about = Asked {
        input: classes,
        ..asked
    };
    let Ok(mut world) = world_of(alloc, classes_of(alloc, about)?)? else {
        return Err(RowErr::NoSubject);
    };
    let words = words_of(alloc, words)?;
    let Some(ask) = ask_of(alloc, &words)? else {
        return Err(RowErr::NoQuestion);
    };
    let Ask {
        classes: _,
        package,
        super_name,
        questions,
    } = ask;
    let client = Client {
        package,
        super_name,
    };
    match questions.as_slice() {
        [question] => line_in(alloc, &mut world, &client, question),
        _ => Err(RowErr::NoQuestion),
    }
}
