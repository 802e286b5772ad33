//! Descriptions from which the examples are built. Where memory is wanting, the test ends.
use ask_text::{Answer, Finding, answer_line};
use class_desc::{AnnDesc, Attr, ClassDesc, FieldDesc, MethodDesc};
use hdr_core::{List, Text};
use questions::Kind;
use std::alloc::Global;
use std::process::Abort;

pub type Bytes = &'static [u8];

pub fn text(rt: &impl Abort, alloc: Global, bytes: &[u8]) -> Text {
    Text::of(alloc, bytes).expect(rt, "memory")
}

fn texts(rt: &impl Abort, alloc: Global, all: &[Bytes]) -> List<Text> {
    let mut texts = Vec::new(alloc);
    for bytes in all {
        texts.push(text(rt, alloc, bytes)).expect(rt, "memory");
    }
    List::of(texts)
}

fn optional_text(rt: &impl Abort, alloc: Global, bytes: Option<Bytes>) -> Option<Text> {
    match bytes {
        Some(bytes) => Some(text(rt, alloc, bytes)),
        None => None,
    }
}

pub fn field(
    rt: &impl Abort,
    alloc: Global,
    flags: u16,
    name: &[u8],
    descriptor: &[u8],
    attributes: Vec<Attr>,
) -> FieldDesc {
    FieldDesc {
        flags,
        name: text(rt, alloc, name),
        descriptor: text(rt, alloc, descriptor),
        attrs: List::of(attributes),
    }
}

/// A method `m`.
pub fn method(
    rt: &impl Abort,
    alloc: Global,
    flags: u16,
    descriptor: &[u8],
    attributes: Vec<Attr>,
) -> MethodDesc {
    MethodDesc {
        flags,
        name: text(rt, alloc, b"m"),
        descriptor: text(rt, alloc, descriptor),
        attrs: List::of(attributes),
    }
}

/// Flags, name, superclass and superinterfaces.
pub type Header = (u16, Bytes, Option<Bytes>, &'static [Bytes]);

pub fn class(
    rt: &impl Abort,
    alloc: Global,
    header: Header,
    fields: Vec<FieldDesc>,
    methods: Vec<MethodDesc>,
    attributes: Vec<Attr>,
) -> ClassDesc {
    let (flags, name, super_name, supers) = header;
    ClassDesc {
        minor: 0,
        major: 61,
        flags,
        name: text(rt, alloc, name),
        super_name: optional_text(rt, alloc, super_name),
        interfaces: texts(rt, alloc, supers),
        fields: List::of(fields),
        methods: List::of(methods),
        attrs: List::of(attributes),
    }
}

/// A class without members and attributes.
pub fn bare_class(rt: &impl Abort, alloc: Global, header: Header) -> ClassDesc {
    class(
        rt,
        alloc,
        header,
        Vec::new(alloc),
        Vec::new(alloc),
        Vec::new(alloc),
    )
}

fn annotations(rt: &impl Abort, alloc: Global, descriptors: &[Bytes]) -> List<AnnDesc> {
    let mut annotations = Vec::new(alloc);
    for descriptor in descriptors {
        let annotation = AnnDesc {
            descriptor: text(rt, alloc, descriptor),
            elements: List::of(Vec::new(alloc)),
        };
        annotations.push(annotation).expect(rt, "memory");
    }
    List::of(annotations)
}

/// The attributes of a place with annotations: the invisible ones stand in front.
pub fn annotated(
    rt: &impl Abort,
    alloc: Global,
    visible: &[Bytes],
    invisible: &[Bytes],
) -> Vec<Attr> {
    let mut attributes = Vec::new(alloc);
    if !invisible.is_empty() {
        let attribute = Attr::InvisibleAnns(annotations(rt, alloc, invisible));
        attributes.push(attribute).expect(rt, "memory");
    }
    attributes.push(Attr::Deprecated).expect(rt, "memory");
    if !visible.is_empty() {
        let attribute = Attr::VisibleAnns(annotations(rt, alloc, visible));
        attributes.push(attribute).expect(rt, "memory");
    }
    attributes
}

pub fn check_answer(
    rt: &impl Abort,
    alloc: Global,
    kind: Kind,
    value: &str,
    answer: Answer<'_>,
    wanted: &[u8],
) {
    let line = answer_line(alloc, kind, value, answer).expect(rt, "memory");
    let mut whole = Vec::from_slice(alloc, wanted).expect(rt, "memory");
    whole.push(b'\n').expect(rt, "memory");
    assert!(rt; line.as_slice() == whole.as_slice(), "{value}");
}

pub fn check_finding(
    rt: &impl Abort,
    alloc: Global,
    kind: Kind,
    value: &str,
    finding: Finding<'_>,
    wanted: &[u8],
) {
    check_answer(rt, alloc, kind, value, Answer::Found(finding), wanted);
}
