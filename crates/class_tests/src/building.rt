//! What the tests build descriptions from. Where memory is wanting, the test ends.
use class_desc::{AnnDesc, Attr, ClassDesc, ElemPair, ElemValue, FieldDesc, MethodDesc, Value};
use hdr_core::{List, Text, TryCopy};
use std::process::Abort;

pub fn text<R: Abort + AllocGlobal>(rt: &R, bytes: &[u8]) -> Text {
    Text::of(rt.alloc(), bytes).expect(rt, "memory")
}

pub fn none<R: AllocGlobal, T>(rt: &R) -> List<T> {
    List::of(Vec::new(rt.alloc()))
}

pub fn one<R: Abort + AllocGlobal, T: Drop>(rt: &R, item: T) -> List<T> {
    let mut items = Vec::new(rt.alloc());
    items.push(item).expect(rt, "memory");
    List::of(items)
}

pub fn list<R: Abort + AllocGlobal, T: Drop, const N: usize>(rt: &R, items: [T; N]) -> List<T> {
    List::of(Vec::from_array(rt.alloc(), items).expect(rt, "memory"))
}

/// As many copies of an item.
pub fn repeated<R: Abort + AllocGlobal, T: TryCopy + Drop>(
    rt: &R,
    item: T,
    count: usize,
) -> List<T> {
    let mut items = Vec::new(rt.alloc());
    for _ in 0..count {
        let copy = item.try_copy(rt.alloc()).expect(rt, "memory");
        items.push(copy).expect(rt, "memory");
    }
    List::of(items)
}

/// The interface or class A without members and superclass, with these attributes.
pub fn class_of<R: AllocGlobal + Abort>(rt: &R, attrs: List<Attr>) -> ClassDesc {
    ClassDesc {
        minor: 0,
        major: 61,
        flags: 0x0021,
        name: text(rt, b"A"),
        super_name: None,
        interfaces: none(rt),
        fields: none(rt),
        methods: none(rt),
        attrs,
    }
}

pub fn field<R: Abort + AllocGlobal>(
    rt: &R,
    name: &[u8],
    descriptor: &[u8],
    attrs: List<Attr>,
) -> FieldDesc {
    FieldDesc {
        flags: 0x0019,
        name: text(rt, name),
        descriptor: text(rt, descriptor),
        attrs,
    }
}

pub fn method<R: Abort + AllocGlobal>(rt: &R, name: &[u8], attrs: List<Attr>) -> MethodDesc {
    MethodDesc {
        flags: 0x0001,
        name: text(rt, name),
        descriptor: text(rt, b"()V"),
        attrs,
    }
}

/// An annotation of the type `L;` without elements, or with one of the name `v`.
pub fn annotation<R: Abort + AllocGlobal>(rt: &R, elements: List<ElemPair>) -> AnnDesc {
    AnnDesc {
        descriptor: text(rt, b"L;"),
        elements,
    }
}

pub fn pair<R: Abort + AllocGlobal>(rt: &R, name: &[u8], value: ElemValue) -> ElemPair {
    ElemPair {
        name: text(rt, name),
        value,
    }
}

pub fn constant(tag: u8, value: Value) -> ElemValue {
    ElemValue::Const { tag, value }
}
