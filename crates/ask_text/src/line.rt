//! The line that answers a question.
ghost use Rattle.std.specs.Prelude.{◌≡◌, ◌++◌, IfOk, OnOk};
ghost use Rattle.ask_text.specs.Lines.{line_of, finding_text as finding_text_of};
ghost use Rattle.ask_text.specs.Lines.{answer_text as answer_text_of, class_text};
ghost use Rattle.ask_text.specs.Seen.{answer_seen, finding_seen};
ghost use Rattle.ask_text.specs.Texts.{behind_blank, flags_text};
ghost use Rattle.class_views.specs.View.{view_of_desc};

use crate::answer::{Answer, Finding};
use crate::parts::{
    append_annotations, append_constant, append_flags, append_names, append_superclass, append_word,
};
use class_desc::ClassDesc;
use hdr_core::{Memory, Text};
use questions::Kind;
use std::alloc::Global;

/// The supertypes of a class, or its flags, by what is asked.
fn append_class(line: &mut Vec<u8>, kind: Kind, class: &ClassDesc) -> Result<(), Memory>
    ensures { OnOk result (line.new.items
        ≡ line.old.items ++ class_text kind (view_of_desc class.now)) }
{
    match kind {
        Kind::Supers => {
            append_superclass(line, &class.super_name)?;
            append_names(line, class.interfaces.items())
        }
        _ => append_flags(line, class.flags),
    }
}

fn append_member(
    line: &mut Vec<u8>,
    declarer: &Text,
    flags: u16,
    descriptor: &Text,
) -> Result<(), Memory>
    ensures { OnOk result (line.new.items ≡ line.old.items
        ++ (behind_blank declarer.now ++ behind_blank (flags_text flags)
        ++ behind_blank descriptor.now)) }
{
    append_word(line, declarer.bytes())?;
    append_flags(line, flags)?;
    append_word(line, descriptor.bytes())
}

fn append_finding(line: &mut Vec<u8>, kind: Kind, finding: Finding<'_>) -> Result<(), Memory>
    ensures { OnOk result (line.new.items
        ≡ line.old.items ++ finding_text_of kind (finding_seen finding.entry)) }
{
    match finding {
        Finding::Class(class) => append_class(line, kind, class),
        Finding::Field { declarer, field } => {
            append_member(line, declarer, field.flags, &field.descriptor)
        }
        Finding::Method { declarer, method } => {
            append_member(line, declarer, method.flags, &method.descriptor)
        }
        Finding::Constant(value) => append_constant(line, value),
        Finding::Annotations(attributes) => append_annotations(line, attributes),
    }
}

/// Puts a word and a class, each behind a blank.
fn append_about(line: &mut Vec<u8>, word: &[u8], class: &Text) -> Result<(), Memory>
    ensures { OnOk result (line.new.items
        ≡ line.old.items ++ behind_blank (word.now ++ behind_blank class.now)) }
{
    append_word(line, word)?;
    append_word(line, class.bytes())
}

fn append_answer(line: &mut Vec<u8>, kind: Kind, answer: Answer<'_>) -> Result<(), Memory>
    ensures { OnOk result (line.new.items
        ≡ line.old.items ++ behind_blank (answer_text_of kind (answer_seen answer.entry))) }
{
    match answer {
        Answer::Found(finding) => {
            line.extend_from_slice(b" found")?;
            append_finding(line, kind, finding)
        }
        Answer::NotFound => append_word(line, b"not-found"),
        Answer::NotAccessible(declarer) => append_about(line, b"not-accessible", declarer),
        Answer::Ambiguous(first, second) => {
            append_word(line, b"ambiguous")?;
            append_word(line, first.bytes())?;
            append_word(line, second.bytes())
        }
        Answer::WrongKind => append_word(line, b"wrong-kind"),
        Answer::Cycle(at) => append_about(line, b"cycle", at),
    }
}

/// The line that answers a question of a kind, with the value as written and a line feed.
pub fn answer_line(
    alloc: Global,
    kind: Kind,
    value: &str,
    answer: Answer<'_>,
) -> Result<Vec<u8>, Memory>
    ensures { IfOk result (λ line.
        line.items ≡ line_of kind value.now (answer_seen answer.entry)) }
{
    let mut line = Vec::from_slice(alloc, kind.word())?;
    append_word(&mut line, value.as_bytes())?;
    append_answer(&mut line, kind, answer)?;
    line.extend_from_slice(b"\n")?;
    Ok(line)
}
