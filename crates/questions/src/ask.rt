//! All words behind `ask`.
ghost use Rattle.std.specs.Prelude.{◌≡◌, [], map, string_bytes, IfOk, option_map};
ghost use Rattle.std.specs.Prelude.{option_and_then};
ghost use Rattle.std.specs.List.{filter_map, list_all};
ghost use Rattle.std.specs.Option.{option_map_or};
ghost use Rattle.java_names.specs.Paths.{name_of_path as name_of};
ghost use Rattle.option_words.specs.Lists.{nonempty};
ghost use Rattle.option_words.specs.Seen.{all_given, text_seen};
ghost use Rattle.questions.specs.Asking.{ask, asked_by as asked_by_options, is_setting};
ghost use Rattle.questions.specs.Asking.{is_option as is_option_of, asked_value, each_question};
ghost use Rattle.questions.specs.Asking.{questions_of as questions_of_given, are_right_options};
ghost use Rattle.questions.specs.Asked.{all_asked, maybe_questions_seen, maybe_ask_seen};

use crate::kind::Kind;
use crate::question::Question;
use hdr_core::{Memory, Text};
use java_names::name_of_path;
use option_words::{Given, WORKERS, are_workers, options_of, paths_given, sole_value};
use std::alloc::Global;

/// What the words behind `ask` ask for.
#[derive(Drop)]
pub struct Ask<'a> {
    /// The roots of the classes, one at least, in their order.
    pub classes: Vec<&'a str>,
    /// The client's package, with `/` between its parts; empty where none is given.
    pub package: Text,
    /// The client's superclass.
    pub super_name: Option<Text>,
    /// One at least, in their order.
    pub questions: Vec<Question<'a>>,
}

/// The option of the roots.
pub const CLASSES: &[u8] = b"--classes";

/// The option of the client's package.
pub const FROM: &[u8] = b"--from";

/// The option of the client's superclass.
pub const UNDER: &[u8] = b"--under";

/// Whether an option asks nothing.
fn is_setting_option(option: &[u8]) -> bool
    ensures { result ≡ is_setting option.now }
{
    option == CLASSES || option == FROM || option == UNDER || option == WORKERS
}

fn is_option(given: &Given<'_>) -> bool
    ensures { result ≡ is_option_of given.now.option.now }
{
    let option = given.option.as_bytes();
    Kind::of_option(option).is_some() || is_setting_option(option)
}

fn are_options(given: &[Given<'_>]) -> bool
    ensures { result ≡ list_all (λ o. is_option_of o.0) (all_given given.now) }
{
    for one in given {
        if !is_option(one) {
            return false;
        }
    }
    true
}

/// What an option asks, with its value.
#[derive(Clone, Copy)]
struct AskedValue<'a> {
    kind: Kind,
    value: &'a str,
}

/// What is asked, in the order of the options.
fn asked_values<'a>(alloc: Global, given: &[Given<'a>]) -> Result<Vec<AskedValue<'a>>, Memory>
    ensures { IfOk result (λ found.
        all_asked found.items ≡ filter_map asked_value (all_given given.now)) }
{
    let mut found = Vec::new(alloc);
    for one in given {
        if let Some(kind) = Kind::of_option(one.option.as_bytes()) {
            found.push(AskedValue {
                kind,
                value: one.value,
            })?;
        }
    }
    Ok(found)
}

/// The questions of what is asked: none where a value hasn't its form.
fn questions_asked<'a>(
    alloc: Global,
    all: &[AskedValue<'a>],
) -> Result<Option<Vec<Question<'a>>>, Memory>
    ensures { IfOk result (λ questions.
        maybe_questions_seen questions ≡ each_question (all_asked all.now)) }
{
    let mut questions = Vec::new(alloc);
    for one in all {
        match Question::of(alloc, one.kind, one.value)? {
            Some(question) => questions.push(question)?,
            None => return Ok(None),
        }
    }
    Ok(Some(questions))
}

/// The questions among the options, one at least.
fn questions_of<'a>(alloc: Global, given: &[Given<'a>]) -> Result<Option<Vec<Question<'a>>>, Memory>
    ensures { IfOk result (λ questions. maybe_questions_seen questions
        ≡ option_and_then nonempty (questions_of_given (all_given given.now))) }
{
    let values = asked_values(alloc, given)?;
    let Some(questions) = questions_asked(alloc, &values)? else {
        return Ok(None);
    };
    Ok(if questions.is_empty() {
        None
    } else {
        Some(questions)
    })
}

/// The client's package: the unnamed one where none is given.
fn package(alloc: Global, from: Option<&str>) -> Result<Text, Memory>
    ensures { IfOk result (λ name. name ≡ option_map_or name_of (text_seen from.entry) []) }
{
    match from {
        Some(word) => name_of_path(alloc, word),
        None => Text::of(alloc, b""),
    }
}

fn superclass(alloc: Global, under: Option<&str>) -> Result<Option<Text>, Memory>
    ensures { IfOk result (λ name. name ≡ option_map name_of (text_seen under.entry)) }
{
    match under {
        Some(word) => Ok(Some(name_of_path(alloc, word)?)),
        None => Ok(None),
    }
}

/// Whether no other option is given, and the number of workers as it may be.
fn are_right(alloc: Global, given: &[Given<'_>]) -> Result<bool, Memory>
    ensures { IfOk result (λ right. right ≡ are_right_options (all_given given.now)) }
{
    Ok(are_options(given) && are_workers(alloc, given)?)
}

/// What right options ask for: none where one is missing, is given too often, or hasn't its form.
fn asked_by<'a>(alloc: Global, given: &[Given<'a>]) -> Result<Option<Ask<'a>>, Memory>
    ensures { IfOk result (λ ask. maybe_ask_seen ask ≡ asked_by_options (all_given given.now)) }
{
    let Some(classes) = paths_given(alloc, given, CLASSES)? else {
        return Ok(None);
    };
    let Some(from) = sole_value(alloc, given, FROM)? else {
        return Ok(None);
    };
    let Some(under) = sole_value(alloc, given, UNDER)? else {
        return Ok(None);
    };
    let Some(questions) = questions_of(alloc, given)? else {
        return Ok(None);
    };
    Ok(Some(Ask {
        classes,
        package: package(alloc, from)?,
        super_name: superclass(alloc, under)?,
        questions,
    }))
}

/// What the words behind `ask` ask for: none where they are no job. Whether a word names an
/// archive is not looked at.
pub fn ask_of(alloc: Global, words: &[String]) -> Result<Option<Ask<'_>>, Memory>
    ensures { IfOk result (λ asked.
        maybe_ask_seen asked ≡ ask (map string_bytes words.now)) }
{
    let Some(given) = options_of(alloc, words)? else {
        return Ok(None);
    };
    if are_right(alloc, &given)? {
        asked_by(alloc, &given)
    } else {
        Ok(None)
    }
}
