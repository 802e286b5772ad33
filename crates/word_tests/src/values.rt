//! Values of each option, and what they ask for.
use crate::building::asked_of_value;
use std::alloc::Global;
use std::process::Abort;

/// An option, a value, and what is asked; nothing where the words are no job.
type Row = (&'static str, &'static str, &'static [u8]);

/// Classes (JVMS 4.2.1): parts with `/` between them, each not empty and without `. ; [`.
const CLASSES: [Row; 19] = [
    ("--type", "A", b"type A"),
    ("--type", "a/b/C$D", b"type a/b/C$D"),
    // no mark of this option
    ("--type", "A#b", b"type A#b"),
    ("--type", "A#b:I", b"type A#b:I"),
    ("--type", "<a>", b"type <a>"),
    // each unit by itself: U+0000 as two bytes, U+1D54F as two surrogates
    ("--type", "\u{e9}", b"type \xc3\xa9"),
    ("--type", "\u{20ac}", b"type \xe2\x82\xac"),
    ("--type", "\u{1d54f}", b"type \xed\xa0\xb5\xed\xb5\x8f"),
    ("--type", "a\0b", b"type a\xc0\x80b"),
    ("--supers", "a/B", b"supers a/B"),
    ("--type", "a.B", b""),
    ("--type", "A;", b""),
    ("--type", "[A", b""),
    ("--type", "/A", b""),
    ("--type", "a//B", b""),
    ("--supers", "A/", b""),
    ("--supers", "a.B", b""),
    ("--supers", "A;", b""),
    ("--supers", "A[]", b""),
];

/// Fields by name and descriptor (JVMS 4.2.2, 4.3.2).
const FIELDS: [Row; 18] = [
    ("--field", "A#x:I", b"field A x I"),
    ("--field", "a/B#x:[[La/C;", b"field a/B x [[La/C;"),
    ("--field", "A#<init>:Z", b"field A <init> Z"),
    ("--field", "A#b#c:J", b"field A b#c J"),
    // the first mark counts, which is no place for a later one
    ("--field", "A#x:La:b;", b"field A x La:b;"),
    ("--field", "A#x:y:I", b""),
    ("--field", "A", b""),
    ("--field", "A#x", b""),
    ("--field", "A:x#I", b""),
    ("--field", "#x:I", b""),
    ("--field", "A#:I", b""),
    ("--field", "A#x:", b""),
    ("--field", "A#a.b:I", b""),
    ("--field", "A#a;:I", b""),
    ("--field", "A#[:I", b""),
    ("--field", "A#a/b:I", b""),
    ("--field", "A#x:V", b""),
    ("--field", "A#x:()V", b""),
];

/// Methods (JVMS 4.2.2, 4.3.3).
const METHODS: [Row; 20] = [
    ("--method", "A#m:()V", b"method A m ()V"),
    ("--method", "A#m:(IJLa/B;)[I", b"method A m (IJLa/B;)[I"),
    ("--method", "A#<init>:()V", b"method A <init> ()V"),
    ("--method", "A#<clinit>:()V", b"method A <clinit> ()V"),
    ("--imethod", "A#m:()La:b;", b"imethod A m ()La:b;"),
    (
        "--imethod",
        "\u{1d54f}#\u{e9}:()V",
        b"imethod \xed\xa0\xb5\xed\xb5\x8f \xc3\xa9 ()V",
    ),
    ("--method", "A#<x>:()V", b""),
    ("--method", "A#a<b:()V", b""),
    ("--method", "A#a>b:()V", b""),
    ("--method", "A#a.b:()V", b""),
    ("--method", "A#a;b:()V", b""),
    ("--method", "A#a[b:()V", b""),
    ("--method", "A#a/b:()V", b""),
    ("--method", "A#m:I", b""),
    ("--method", "A#m:(V)V", b""),
    ("--method", "A#m:()", b""),
    ("--method", "A#m", b""),
    ("--imethod", "A#m()V", b""),
    ("--imethod", "A#:()V", b""),
    ("--imethod", "A.B#m:()V", b""),
];

/// Constants are asked of a name, annotations of a class, a name, or a name and a descriptor.
const OTHERS: [Row; 21] = [
    ("--constant", "A#x", b"constant A x"),
    ("--constant", "A#x:y", b"constant A x:y"),
    ("--constant", "A#b#c", b"constant A b#c"),
    ("--constant", "A#<x>", b"constant A <x>"),
    ("--constant", "A", b""),
    ("--constant", "A#", b""),
    ("--constant", "#x", b""),
    ("--constant", "A#a/b", b""),
    ("--constant", "A#a.b", b""),
    ("--constant", "A#a;b", b""),
    ("--constant", "A#a[b", b""),
    ("--annotations", "a/B", b"annotations a/B"),
    ("--annotations", "A:b", b"annotations A:b"),
    ("--annotations", "A#x", b"annotations A x"),
    ("--annotations", "A#m:()V", b"annotations A m ()V"),
    (
        "--annotations",
        "A#<clinit>:()V",
        b"annotations A <clinit> ()V",
    ),
    ("--annotations", "A#x:I", b""),
    ("--annotations", "A#x:", b""),
    ("--annotations", "A#", b""),
    ("--annotations", "#m:()V", b""),
    ("--annotations", "A.b", b""),
];

fn check(rt: &impl Abort, alloc: Global, rows: &[Row]) {
    for &(option, value, wanted) in rows {
        let found = asked_of_value(rt, alloc, option, value);
        assert!(rt; found.as_slice() == wanted, "{option} {value}");
    }
}

#[test]
fn reads_classes(rt: HostRuntime) {
    check(&rt, rt.alloc(), &CLASSES);
}

#[test]
fn reads_fields(rt: HostRuntime) {
    check(&rt, rt.alloc(), &FIELDS);
}

#[test]
fn reads_methods(rt: HostRuntime) {
    check(&rt, rt.alloc(), &METHODS);
}

#[test]
fn reads_constants_and_annotations(rt: HostRuntime) {
    check(&rt, rt.alloc(), &OTHERS);
}
