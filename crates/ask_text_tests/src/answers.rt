//! Answers that find nothing.
use crate::building::{Bytes, check_answer, text};
use ask_text::Answer;
use questions::Kind;

/// Questions, with what is told where nothing is there, and where their kind is wrong.
const BARE: [(Kind, &str, Bytes, Bytes); 7] = [
    (Kind::Type, "B", b"type B not-found", b"type B wrong-kind"),
    (
        Kind::Supers,
        "B",
        b"supers B not-found",
        b"supers B wrong-kind",
    ),
    (
        Kind::Field,
        "A#x:I",
        b"field A#x:I not-found",
        b"field A#x:I wrong-kind",
    ),
    (
        Kind::Method,
        "A#m:()V",
        b"method A#m:()V not-found",
        b"method A#m:()V wrong-kind",
    ),
    (
        Kind::InterfaceMethod,
        "C#m:()V",
        b"imethod C#m:()V not-found",
        b"imethod C#m:()V wrong-kind",
    ),
    (
        Kind::Constant,
        "A#L",
        b"constant A#L not-found",
        b"constant A#L wrong-kind",
    ),
    (
        Kind::Annotations,
        "A",
        b"annotations A not-found",
        b"annotations A wrong-kind",
    ),
];

/// Questions, a class, and what is told where it isn't accessible, and where it reaches itself.
const NAMED: [(Kind, &str, Bytes, Bytes, Bytes); 4] = [
    (
        Kind::Type,
        "A",
        b"A",
        b"type A not-accessible A",
        b"type A cycle A",
    ),
    (
        Kind::Field,
        "A#x:I",
        b"a/B",
        b"field A#x:I not-accessible a/B",
        b"field A#x:I cycle a/B",
    ),
    (
        Kind::InterfaceMethod,
        "I#m:()V",
        b"\xed\xa0\xb5",
        b"imethod I#m:()V not-accessible \xed\xa0\xb5",
        b"imethod I#m:()V cycle \xed\xa0\xb5",
    ),
    (
        Kind::Constant,
        "A#L",
        b"A",
        b"constant A#L not-accessible A",
        b"constant A#L cycle A",
    ),
];

#[test]
fn tells_that_nothing_is_there(rt: HostRuntime) {
    for &(kind, value, not_found, wrong_kind) in &BARE {
        check_answer(&rt, rt.alloc(), kind, value, Answer::NotFound, not_found);
        check_answer(&rt, rt.alloc(), kind, value, Answer::WrongKind, wrong_kind);
    }
}

#[test]
fn tells_a_class(rt: HostRuntime) {
    let alloc = rt.alloc();
    for &(kind, value, name, hidden, ring) in &NAMED {
        let name = text(&rt, alloc, name);
        check_answer(
            &rt,
            alloc,
            kind,
            value,
            Answer::NotAccessible(&name),
            hidden,
        );
        check_answer(&rt, alloc, kind, value, Answer::Cycle(&name), ring);
    }
}

#[test]
fn tells_two_classes(rt: HostRuntime) {
    let first = text(&rt, rt.alloc(), b"N");
    let second = text(&rt, rt.alloc(), b"A");
    let answer = Answer::Ambiguous(&first, &second);
    check_answer(
        &rt,
        rt.alloc(),
        Kind::Field,
        "C#x:I",
        answer,
        b"field C#x:I ambiguous N A",
    );
}
