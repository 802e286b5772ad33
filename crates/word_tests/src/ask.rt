//! All words behind `ask`.
use crate::building::{Row, check_jobs, job_text, push, words};

/// What is asked: the roots, the client, and each question with its value.
const JOBS: [Row; 13] = [
    ("ask --classes c --type A", b"c from  under -, A type A"),
    ("ask --type A --classes c", b"c from  under -, A type A"),
    // roots in their order, also twice, and without the slashes at their ends
    (
        "ask --classes b --type A --classes a/ --classes b//",
        b"b a b from  under -, A type A",
    ),
    (
        "ask --classes /a/b --type A",
        b"/a/b from  under -, A type A",
    ),
    // questions in their order, whatever they ask, also twice
    (
        "ask --supers B --classes c --type A --constant A#x --type A",
        b"c from  under -, B supers B, A type A, A#x constant A x, A type A",
    ),
    // the client, in names without a form
    (
        "ask --from p/q --classes c --under p/B --type A",
        b"c from p/q under p/B, A type A",
    ),
    (
        "ask --classes c --type A --from p/",
        b"c from p/ under -, A type A",
    ),
    (
        "ask --classes c --type A --from p.q",
        b"c from p.q under -, A type A",
    ),
    (
        "ask --classes c --type A --under A.b",
        b"c from  under A.b, A type A",
    ),
    (
        "ask --classes c --type A --under \u{1d54f} --from \u{e9}",
        b"c from \xc3\xa9 under \xed\xa0\xb5\xed\xb5\x8f, A type A",
    ),
    // the value as written
    (
        "ask --classes c --type \u{1d54f}",
        b"c from  under -, \xf0\x9d\x95\x8f type \xed\xa0\xb5\xed\xb5\x8f",
    ),
    // the number of workers
    (
        "ask --classes c --type A --workers 1",
        b"c from  under -, A type A",
    ),
    (
        "ask --workers 64 --classes c --type A",
        b"c from  under -, A type A",
    ),
];

/// Words that are no job.
const REFUSED: [Row; 27] = [
    // the number of workers, once at most
    ("ask --classes c --type A --workers 0", b""),
    ("ask --classes c --type A --workers 65", b""),
    ("ask --classes c --type A --workers 04", b""),
    ("ask --classes c --type A --workers 4 --workers 4", b""),
    ("ask --classes c --type A --workers", b""),
    // a root and a question at least
    ("ask", b""),
    ("ask --classes c", b""),
    ("ask --type A", b""),
    ("ask --classes c --from p --under A --workers 4", b""),
    ("ask --classes / --type A", b""),
    ("ask --classes c --classes // --type A", b""),
    // one package and one superclass at most
    ("ask --classes c --type A --from p --from p", b""),
    ("ask --classes c --type A --under B --under B", b""),
    // each option with its value
    ("ask --classes c --type", b""),
    ("ask --classes --type A", b""),
    ("ask --classes c --type -A", b""),
    ("ask --classes c --type A -", b""),
    ("ask --classes c --from -p --type A", b""),
    ("ask --classes c --type=A", b""),
    ("ask c --type A", b""),
    // no others
    ("ask --classes c --type A --output o", b""),
    ("ask --classes c --Type A", b""),
    ("ask --classes c type A", b""),
    ("ask --classes c --member-field A#x", b""),
    ("ask --classes c --member-method A#m:()V", b""),
    // a question without its form, beside right ones
    ("ask --classes c --type A --field A#x --type B", b""),
    ("ask --classes c --type A --type A/", b""),
];

#[test]
fn reads_words(rt: HostRuntime) {
    check_jobs(&rt, rt.alloc(), &JOBS);
}

#[test]
fn refuses_words_that_are_no_job(rt: HostRuntime) {
    check_jobs(&rt, rt.alloc(), &REFUSED);
}

#[test]
fn an_empty_value_is_none(rt: HostRuntime) {
    let mut words = words(&rt, rt.alloc(), "ask --classes c --type");
    push(&rt, &mut words, "");
    assert!(rt; job_text(&rt, rt.alloc(), &words).is_empty());
}

/// A value may have any characters behind its first one: a blank, a line feed.
#[test]
fn a_value_is_one_word(rt: HostRuntime) {
    let mut words = words(&rt, rt.alloc(), "ask --classes c --constant");
    push(&rt, &mut words, "A#a b\nc");
    let found = job_text(&rt, rt.alloc(), &words);
    let wanted = b"c from  under -, A#a b\nc constant A a b\nc";
    assert!(rt; found.as_slice() == wanted.as_slice());
}
