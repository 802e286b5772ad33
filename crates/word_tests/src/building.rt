//! Words, and their job as a text. Where memory is wanting, the test ends.
use command_line::{Command, Job, Refusal, job_of};
use hdr_core::Text;
use questions::{Ask, MemberRef, NamedField, Part, Query, Question};
use std::alloc::Global;
use std::process::Abort;

/// The words of a line, which stand between spaces.
pub fn words(rt: &impl Abort, alloc: Global, line: &str) -> Vec<String> {
    let mut words = Vec::new(alloc);
    for word in line.split_terminator(' ') {
        push(rt, &mut words, word);
    }
    words
}

pub fn push(rt: &impl Abort, words: &mut Vec<String>, word: &str) {
    let word = String::from_str(*words.allocator(), word).expect(rt, "memory");
    words.push(word).expect(rt, "memory");
}

fn add(rt: &impl Abort, text: &mut Vec<u8>, piece: &[u8]) {
    text.extend_from_slice(piece).expect(rt, "memory");
}

/// Each of them behind a blank.
fn add_all(rt: &impl Abort, text: &mut Vec<u8>, pieces: &[&Text]) {
    for piece in pieces {
        add(rt, text, b" ");
        add(rt, text, piece.bytes());
    }
}

fn add_member(rt: &impl Abort, text: &mut Vec<u8>, member: &MemberRef) {
    add_all(rt, text, &[&member.class, &member.name, &member.descriptor]);
}

fn add_part(rt: &impl Abort, text: &mut Vec<u8>, class: &Text, part: &Part) {
    match part {
        Part::Whole => add_all(rt, text, &[class]),
        Part::FieldPart(name) => add_all(rt, text, &[class, name]),
        Part::MethodPart { name, descriptor } => add_all(rt, text, &[class, name, descriptor]),
    }
}

fn add_field(rt: &impl Abort, text: &mut Vec<u8>, field: &NamedField) {
    add_all(rt, text, &[&field.class, &field.name]);
}

/// The kind's word, and each part of what is asked behind a blank.
fn add_query(rt: &impl Abort, text: &mut Vec<u8>, question: &Question<'_>) {
    add(rt, text, question.kind.word());
    match &question.query {
        Query::Type(class) => add_all(rt, text, &[class]),
        Query::Supers(class) => add_all(rt, text, &[class]),
        Query::Field(field) => add_member(rt, text, field),
        Query::Method(method) => add_member(rt, text, method),
        Query::InterfaceMethod(method) => add_member(rt, text, method),
        Query::Constant(field) => add_field(rt, text, field),
        Query::Annotations { class, part } => add_part(rt, text, class, part),
    }
}

/// The roots, the package and the superclass.
fn add_client(rt: &impl Abort, text: &mut Vec<u8>, ask: &Ask<'_>) {
    for root in &ask.classes {
        add(rt, text, root.as_bytes());
        add(rt, text, b" ");
    }
    add(rt, text, b"from ");
    add(rt, text, ask.package.bytes());
    add(rt, text, b" under ");
    match &ask.super_name {
        Some(name) => add(rt, text, name.bytes()),
        None => add(rt, text, b"-"),
    }
}

/// The client, and the questions, each with its value.
fn add_ask(rt: &impl Abort, text: &mut Vec<u8>, ask: &Ask<'_>) {
    add_client(rt, text, ask);
    for question in &ask.questions {
        add(rt, text, b", ");
        add(rt, text, question.value.as_bytes());
        add(rt, text, b" ");
        add_query(rt, text, question);
    }
}

/// The inputs, and the output.
fn add_strip(rt: &impl Abort, text: &mut Vec<u8>, inputs: &[&str], output: &str) {
    for input in inputs {
        add(rt, text, input.as_bytes());
        add(rt, text, b" ");
    }
    add(rt, text, b"into ");
    add(rt, text, output.as_bytes());
}

fn add_command(rt: &impl Abort, text: &mut Vec<u8>, command: &Command<'_>) {
    match command {
        Command::Ijar { inputs, output } => add_strip(rt, text, inputs, output),
        Command::Ask(ask) => add_ask(rt, text, ask),
    }
}

fn add_refusal(rt: &impl Abort, text: &mut Vec<u8>, refusal: Refusal<'_>) {
    match refusal {
        Refusal::Archive(word) => {
            add(rt, text, b"archive ");
            add(rt, text, word.as_bytes());
        }
        Refusal::Help => {}
    }
}

/// The job of the words: empty where they ask for nothing that is known.
pub fn job_text(rt: &impl Abort, alloc: Global, words: &[String]) -> Vec<u8> {
    let mut text = Vec::new(alloc);
    match job_of(alloc, words).expect(rt, "memory") {
        Job::Refused(refusal) => add_refusal(rt, &mut text, refusal),
        Job::Doing(command) => add_command(rt, &mut text, &command),
    }
    text
}

/// Words between spaces, and their job as a text.
pub type Row = (&'static str, &'static [u8]);

pub fn check_jobs(rt: &impl Abort, alloc: Global, rows: &[Row]) {
    for &(line, wanted) in rows {
        let words = words(rt, alloc, line);
        let found = job_text(rt, alloc, &words);
        assert!(rt; found.as_slice() == wanted, "{line}");
    }
}

/// The questions of a value, without what is the same of all: empty where the words are no job.
pub fn asked_of_value(rt: &impl Abort, alloc: Global, option: &str, value: &str) -> Vec<u8> {
    let mut words = words(rt, alloc, "ask --classes c");
    push(rt, &mut words, option);
    push(rt, &mut words, value);
    let mut text = Vec::new(alloc);
    if let Job::Doing(Command::Ask(ask)) = job_of(alloc, &words).expect(rt, "memory") {
        for question in &ask.questions {
            add_query(rt, &mut text, question);
        }
    }
    text
}
