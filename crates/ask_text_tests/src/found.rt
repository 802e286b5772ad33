//! Classes, supertypes, members and annotations that are found.
use crate::building::{Bytes, annotated, bare_class, check_finding, field, method, text};
use ask_text::Finding;
use questions::Kind;

/// A value, the flags of the class, and the line.
const FLAGS: [(&str, u16, Bytes); 8] = [
    ("A", 0x0021, b"type A found 0021"),
    ("A", 0x0000, b"type A found 0000"),
    ("a/B", 0x0601, b"type a/B found 0601"),
    ("A", 0xffff, b"type A found ffff"),
    ("A", 0x4abc, b"type A found 4abc"),
    ("A", 0x000d, b"type A found 000d"),
    ("A#b", 0x8000, b"type A#b found 8000"),
    // told as written, in UTF-8
    ("\u{1d54f}", 0x0010, b"type \xf0\x9d\x95\x8f found 0010"),
];

/// A superclass, superinterfaces, and the line.
const SUPERS: [(Option<Bytes>, &[Bytes], Bytes); 6] = [
    (
        Some(b"java/lang/Object"),
        &[],
        b"supers A found java/lang/Object",
    ),
    (None, &[], b"supers A found -"),
    (Some(b"B"), &[b"I"], b"supers A found B I"),
    // in their order, also twice, and as kept bytes
    (
        Some(b"B"),
        &[b"J", b"a/I", b"J"],
        b"supers A found B J a/I J",
    ),
    (None, &[b"I"], b"supers A found - I"),
    (
        Some(b"\xed\xa0\xb5\xc0\x80"),
        &[],
        b"supers A found \xed\xa0\xb5\xc0\x80",
    ),
];

/// A value, the name of the declarer, flags, a descriptor, and the line.
const FIELDS: [(&str, Bytes, u16, Bytes, Bytes); 4] = [
    ("C#x:I", b"N", 0x0019, b"I", b"field C#x:I found N 0019 I"),
    ("A#x:J", b"A", 0x0000, b"J", b"field A#x:J found A 0000 J"),
    (
        "A#x:[La/B;",
        b"a/B",
        0x50df,
        b"[La/B;",
        b"field A#x:[La/B; found a/B 50df [La/B;",
    ),
    (
        "A#x:y:I",
        b"\xed\xa0\xb5",
        0x0001,
        b"I",
        b"field A#x:y:I found \xed\xa0\xb5 0001 I",
    ),
];

/// A kind, a value, the name of the declarer, flags, a descriptor, and the line.
const METHODS: [(Kind, &str, Bytes, u16, Bytes, Bytes); 4] = [
    (
        Kind::Method,
        "C#m:()V",
        b"N",
        0x0001,
        b"()V",
        b"method C#m:()V found N 0001 ()V",
    ),
    (
        Kind::Method,
        "C#m:()V",
        b"P",
        0x0401,
        b"()V",
        b"method C#m:()V found P 0401 ()V",
    ),
    (
        Kind::InterfaceMethod,
        "I#m:(IJ)La/B;",
        b"a/J",
        0x15ea,
        b"(IJ)La/B;",
        b"imethod I#m:(IJ)La/B; found a/J 15ea (IJ)La/B;",
    ),
    (
        Kind::Method,
        "A#<init>:()V",
        b"A",
        0,
        b"()V",
        b"method A#<init>:()V found A 0000 ()V",
    ),
];

/// A value, visible and invisible annotations, and the line.
const ANNOTATIONS: [(&str, &[Bytes], &[Bytes], Bytes); 8] = [
    ("A", &[], &[], b"annotations A found"),
    ("A", &[b"LV;"], &[], b"annotations A found +LV;"),
    ("A", &[], &[b"LI;"], b"annotations A found -LI;"),
    ("A", &[b"LV;"], &[b"LI;"], b"annotations A found +LV; -LI;"),
    (
        "A",
        &[b"LV;", b"La/W;"],
        &[],
        b"annotations A found +LV; +La/W;",
    ),
    (
        "A#x",
        &[],
        &[b"LI;", b"LI;"],
        b"annotations A#x found -LI; -LI;",
    ),
    (
        "A#m:()V",
        &[b"LV;"],
        &[b"LI;"],
        b"annotations A#m:()V found +LV; -LI;",
    ),
    (
        "A#x",
        &[b"L\xc3\xa9;"],
        &[],
        b"annotations A#x found +L\xc3\xa9;",
    ),
];

#[test]
fn tells_flags(rt: HostRuntime) {
    let alloc = rt.alloc();
    for &(value, flags, wanted) in &FLAGS {
        let class = bare_class(&rt, alloc, (flags, b"A", None, &[]));
        check_finding(
            &rt,
            alloc,
            Kind::Type,
            value,
            Finding::Class(&class),
            wanted,
        );
    }
}

#[test]
fn tells_supertypes(rt: HostRuntime) {
    let alloc = rt.alloc();
    for &(super_name, supers, wanted) in &SUPERS {
        let class = bare_class(&rt, alloc, (0x0021, b"A", super_name, supers));
        check_finding(
            &rt,
            alloc,
            Kind::Supers,
            "A",
            Finding::Class(&class),
            wanted,
        );
    }
}

#[test]
fn tells_fields(rt: HostRuntime) {
    let alloc = rt.alloc();
    for &(value, declarer, flags, descriptor, wanted) in &FIELDS {
        let declarer = text(&rt, alloc, declarer);
        let field = field(&rt, alloc, flags, b"x", descriptor, Vec::new(alloc));
        let finding = Finding::Field {
            declarer: &declarer,
            field: &field,
        };
        check_finding(&rt, alloc, Kind::Field, value, finding, wanted);
    }
}

#[test]
fn tells_methods(rt: HostRuntime) {
    let alloc = rt.alloc();
    for &(kind, value, declarer, flags, descriptor, wanted) in &METHODS {
        let declarer = text(&rt, alloc, declarer);
        let method = method(&rt, alloc, flags, descriptor, Vec::new(alloc));
        let finding = Finding::Method {
            declarer: &declarer,
            method: &method,
        };
        check_finding(&rt, alloc, kind, value, finding, wanted);
    }
}

#[test]
fn tells_annotations(rt: HostRuntime) {
    let alloc = rt.alloc();
    for &(value, visible, invisible, wanted) in &ANNOTATIONS {
        let attributes = annotated(&rt, alloc, visible, invisible);
        let finding = Finding::Annotations(attributes.as_slice());
        check_finding(&rt, alloc, Kind::Annotations, value, finding, wanted);
    }
}
