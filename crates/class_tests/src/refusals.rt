//! What has no class file, for its texts or its pool.
use crate::building::{class_of, constant, list, none, one, repeated, text};
use class_desc::{
    AnnDesc, Attr, ClassDesc, ComponentDesc, ElemPair, ElemValue, FieldDesc, InnerEntry,
    MethodDesc, ParamEntry, Value,
};
use class_writer::{PoolErr, write_class};
use hdr_core::{List, Text};
use std::process::Abort;

/// Why the class A with this attribute has no file.
fn refusal_of<R: Abort + AllocGlobal>(rt: &R, attr: Attr) -> Option<PoolErr> {
    write_class(rt.alloc(), &class_of(rt, one(rt, attr))).err()
}

fn long_text<R: Abort + AllocGlobal>(rt: &R, length: usize) -> Text {
    let mut bytes = Vec::new(rt.alloc());
    bytes.resize(length, b'a').expect(rt, "memory");
    Text::from(bytes)
}

/// An attribute with a text of this length, at each place in turn.
fn with_text<R: Abort + AllocGlobal>(rt: &R, place: u8, length: usize) -> Attr {
    let long = long_text(rt, length);
    let short = text(rt, b"a");
    match place {
        0 => Attr::ConstantValue(Value::Str(long)),
        1 => Attr::Exceptions(one(rt, long)),
        2 => Attr::Signature(long),
        3 => Attr::PermittedSubclasses(one(rt, long)),
        4 => Attr::AnnotationDefault(constant(b's', Value::Str(long))),
        5 => Attr::AnnotationDefault(ElemValue::ClassOf(long)),
        6 => Attr::AnnotationDefault(ElemValue::Enumerated {
            descriptor: long,
            name: short,
        }),
        7 => Attr::AnnotationDefault(ElemValue::Enumerated {
            descriptor: short,
            name: long,
        }),
        8 => Attr::MethodParameters(one(
            rt,
            ParamEntry {
                name: Some(long),
                flags: 0,
            },
        )),
        9 => inner_class(rt, long, None, None),
        10 => inner_class(rt, short, Some(long), None),
        11 => inner_class(rt, short, None, Some(long)),
        12 => component(rt, long, short),
        13 => component(rt, short, long),
        14 => annotated(rt, long, none(rt)),
        _ => {
            let value = constant(b'I', Value::Integer(1));
            annotated(rt, short, one(rt, ElemPair { name: long, value }))
        }
    }
}

fn inner_class<R: Abort + AllocGlobal>(
    rt: &R,
    inner: Text,
    outer: Option<Text>,
    name: Option<Text>,
) -> Attr {
    let flags = 0;
    Attr::InnerClasses(one(
        rt,
        InnerEntry {
            inner,
            outer,
            name,
            flags,
        },
    ))
}

fn component<R: Abort + AllocGlobal>(rt: &R, name: Text, descriptor: Text) -> Attr {
    let attrs = none(rt);
    Attr::Components(one(
        rt,
        ComponentDesc {
            name,
            descriptor,
            attrs,
        },
    ))
}

fn annotated<R: Abort + AllocGlobal>(rt: &R, descriptor: Text, elements: List<ElemPair>) -> Attr {
    Attr::InvisibleAnns(one(
        rt,
        AnnDesc {
            descriptor,
            elements,
        },
    ))
}

#[test]
fn refuses_long_texts_of_attributes(rt: HostRuntime) {
    for place in 0..16 {
        assert!(rt; refusal_of(&rt, with_text(&rt, place, 65_535)).is_none());
        let refused = refusal_of(&rt, with_text(&rt, place, 65_536));
        assert!(rt; refused == Some(PoolErr::TextTooLong { length: 65_536 }));
    }
}

/// A class with a text of this length, at each place outside attributes in turn.
fn class_with_text<R: Abort + AllocGlobal>(rt: &R, place: u8, length: usize) -> ClassDesc {
    let long = long_text(rt, length);
    let plain = class_of(rt, none(rt));
    match place {
        0 => ClassDesc {
            name: long,
            ..plain
        },
        1 => ClassDesc {
            super_name: Some(long),
            ..plain
        },
        2 => ClassDesc {
            interfaces: one(rt, long),
            ..plain
        },
        3 => with_field(rt, long, text(rt, b"I"), plain),
        4 => with_field(rt, text(rt, b"f"), long, plain),
        5 => with_method(rt, long, text(rt, b"()V"), plain),
        _ => with_method(rt, text(rt, b"m"), long, plain),
    }
}

fn with_field<R: Abort + AllocGlobal>(
    rt: &R,
    name: Text,
    descriptor: Text,
    plain: ClassDesc,
) -> ClassDesc {
    let attrs = none(rt);
    let field = FieldDesc {
        flags: 0,
        name,
        descriptor,
        attrs,
    };
    ClassDesc {
        fields: one(rt, field),
        ..plain
    }
}

fn with_method<R: Abort + AllocGlobal>(
    rt: &R,
    name: Text,
    descriptor: Text,
    plain: ClassDesc,
) -> ClassDesc {
    let attrs = none(rt);
    let method = MethodDesc {
        flags: 0,
        name,
        descriptor,
        attrs,
    };
    ClassDesc {
        methods: one(rt, method),
        ..plain
    }
}

#[test]
fn refuses_long_texts_of_classes(rt: HostRuntime) {
    for place in 0..7 {
        let most = write_class(rt.alloc(), &class_with_text(&rt, place, 65_535)).err();
        assert!(rt; most.is_none());
        let refused = write_class(rt.alloc(), &class_with_text(&rt, place, 65_536)).err();
        assert!(rt; refused == Some(PoolErr::TextTooLong { length: 65_536 }));
    }
}

/// The entry is that of the constant, whatever the tag: also where a file can't have it.
#[test]
fn writes_a_number_tagged_as_text(rt: HostRuntime) {
    let value = constant(b's', Value::Integer(1));
    let file = write_class(
        rt.alloc(),
        &class_of(&rt, one(&rt, Attr::AnnotationDefault(value))),
    );
    let want: &[u8] = b"\xca\xfe\xba\xbe\0\0\0\x3d\0\x05\
        \x01\0\x01A\x07\0\x01\x01\0\x11AnnotationDefault\x03\0\0\0\x01\
        \0\x21\0\x02\0\0\0\0\0\0\0\0\0\x01\0\x03\0\0\0\x03s\0\x04";
    assert!(rt; file.expect(&rt, "a file").as_slice() == want);
}

/// A long text behind a long list is told first.
#[test]
fn refuses_texts_before_lists(rt: HostRuntime) {
    let unnamed = ParamEntry {
        name: None,
        flags: 0,
    };
    let parameters = Attr::MethodParameters(repeated(&rt, unnamed, 256));
    let attrs = list(&rt, [parameters, Attr::Signature(long_text(&rt, 65_536))]);
    let refused = write_class(rt.alloc(), &class_of(&rt, attrs)).err();
    assert!(rt; refused == Some(PoolErr::TextTooLong { length: 65_536 }));
}

/// A default of as many longs, each other than the others.
fn class_of_longs<R: Abort + AllocGlobal>(rt: &R, count: i64) -> ClassDesc {
    let mut items = Vec::new(rt.alloc());
    for number in 0..count {
        items
            .push(constant(b'J', Value::Long(number)))
            .expect(rt, "memory");
    }
    class_of(
        rt,
        one(
            rt,
            Attr::AnnotationDefault(ElemValue::List(List::of(items))),
        ),
    )
}

/// The name, the class and the attribute's name take three numbers, each long two, and a text one
/// more.
#[test]
fn fills_pools_with_longs(rt: HostRuntime) {
    let odd = class_of_longs(&rt, 32_765);
    let file = write_class(rt.alloc(), &odd).expect(&rt, "a file");
    assert!(rt; file.get(8..10) == Some(b"\xff\xfe".as_slice()));
    let refused = write_class(rt.alloc(), &class_of_longs(&rt, 32_766)).err();
    assert!(rt; refused == Some(PoolErr::PoolFull { needed: 65_535 }));
    let full = ClassDesc {
        super_name: None,
        flags: 0,
        minor: 0,
        major: 61,
        name: text(&rt, b"AnnotationDefault"),
        interfaces: none(&rt),
        fields: none(&rt),
        methods: none(&rt),
        attrs: class_of_longs(&rt, 32_766).attrs,
    };
    let file = write_class(rt.alloc(), &full).expect(&rt, "a file");
    assert!(rt; file.get(8..10) == Some(b"\xff\xff".as_slice()));
}
