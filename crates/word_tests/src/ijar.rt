//! The words behind `ijar`, and words of no command.
use crate::building::{Row, check_jobs, job_text, push, words};

/// The inputs and the output.
const STRIPPED: [Row; 18] = [
    // the options in any order, the inputs in theirs
    ("ijar --input in --output out", b"in into out"),
    ("ijar --output out --input in", b"in into out"),
    ("ijar --input in --output in", b"in into in"),
    ("ijar --input a --input b --output out", b"a b into out"),
    ("ijar --input b --output out --input a", b"b a into out"),
    // a root twice, below the other, as a file, META-INF as root
    ("ijar --input a --input a --output out", b"a a into out"),
    ("ijar --input a --input a/b --output out", b"a a/b into out"),
    ("ijar --input a/A.class --output out", b"a/A.class into out"),
    (
        "ijar --input a/META-INF --output out",
        b"a/META-INF into out",
    ),
    // slashes at the end go
    ("ijar --input in/ --output out//", b"in into out"),
    ("ijar --input /in/a/ --output ./out", b"/in/a into ./out"),
    ("ijar --input a/ --input b/ --output out", b"a b into out"),
    // not the ending of an archive
    ("ijar --input a.JAR --output out", b"a.JAR into out"),
    // the number of workers, once, anywhere
    ("ijar --input in --output out --workers 1", b"in into out"),
    ("ijar --workers 64 --input in --output out", b"in into out"),
    ("ijar --input in --workers 9 --output out", b"in into out"),
    ("ijar --input in --output out --workers 10", b"in into out"),
    ("ijar --input in --output out --workers 59", b"in into out"),
];

/// Words that are no job.
const REFUSED: [Row; 33] = [
    // each option with its value, one input at least, one output
    ("", b""),
    ("ijar", b""),
    ("ijar --input in", b""),
    ("ijar --output out", b""),
    ("ijar --input in --output", b""),
    ("ijar --input --output out", b""),
    ("ijar --input in --output out --output other", b""),
    ("ijar --input in --output out more", b""),
    ("ijar in --output out", b""),
    // the number of workers
    ("ijar --input in --output out --workers 0", b""),
    ("ijar --input in --output out --workers 65", b""),
    ("ijar --input in --output out --workers 100", b""),
    ("ijar --input in --output out --workers 04", b""),
    ("ijar --input in --output out --workers +4", b""),
    ("ijar --input in --output out --workers 4x", b""),
    ("ijar --input in --output out --workers four", b""),
    ("ijar --input in --output out --workers", b""),
    ("ijar --input in --output out --workers 2 --workers 2", b""),
    ("ijar --Input in --output out", b""),
    ("--input in --output out ijar", b""),
    ("--input in --output out", b""),
    ("IJAR --input in --output out", b""),
    ("turbine --sources in --output out", b""),
    ("ask --classes in --class A", b""),
    // no short forms, no abbreviations, no words that end the options
    ("ijar --input=in --output=out", b""),
    ("ijar -- --input in --output out", b""),
    ("ijar --input in -- --output out", b""),
    ("ijar --inp in --output out", b""),
    ("ijar --input -in --output out", b""),
    ("ijar --input - --output out", b""),
    // nothing but slashes, also beside a right one
    ("ijar --input / --output out", b""),
    ("ijar --input in --output //", b""),
    ("ijar --input in --input / --output out", b""),
];

#[test]
fn reads_words(rt: HostRuntime) {
    check_jobs(&rt, rt.alloc(), &STRIPPED);
}

#[test]
fn refuses_words_that_are_no_job(rt: HostRuntime) {
    check_jobs(&rt, rt.alloc(), &REFUSED);
}

#[test]
fn an_empty_value_is_none(rt: HostRuntime) {
    let mut words = words(&rt, rt.alloc(), "ijar --output out --input");
    push(&rt, &mut words, "");
    assert!(rt; job_text(&rt, rt.alloc(), &words).is_empty());
}
