//! Lists of as many entries as their fields hold, and of one more.
use crate::building::{
    annotation, class_of, constant, field, list, method, none, one, pair, repeated, text,
};
use class_desc::{
    Attr, ClassDesc, ComponentDesc, ElemPair, ElemValue, InnerEntry, ParamEntry, Value,
};
use class_writer::{PoolErr, write_class};
use hdr_core::List;
use std::process::Abort;

/// Whether the class of the most entries has a file, and the one of one more hasn't.
fn is_last<R: AllocGlobal>(rt: &R, most: &ClassDesc, more: &ClassDesc, count: u64) -> bool {
    let written = write_class(rt.alloc(), most).err();
    let refused = write_class(rt.alloc(), more).err();
    written.is_none() && refused == Some(PoolErr::TooMany { count })
}

fn components<R: Abort + AllocGlobal>(rt: &R, count: usize) -> List<ComponentDesc> {
    let mut items = Vec::new(rt.alloc());
    for _ in 0..count {
        let component = ComponentDesc {
            name: text(rt, b"c"),
            descriptor: text(rt, b"I"),
            attrs: none(rt),
        };
        items.push(component).expect(rt, "memory");
    }
    List::of(items)
}

fn elements<R: Abort + AllocGlobal>(rt: &R, count: usize) -> List<ElemPair> {
    let mut items = Vec::new(rt.alloc());
    for _ in 0..count {
        let element = pair(rt, b"v", constant(b'I', Value::Integer(1)));
        items.push(element).expect(rt, "memory");
    }
    List::of(items)
}

/// An attribute with a list of this length, each kind of list in turn.
fn with_list<R: Abort + AllocGlobal>(rt: &R, kind: u8, count: usize) -> Attr {
    let plain = annotation(rt, none(rt));
    match kind {
        0 => Attr::Exceptions(repeated(rt, text(rt, b"E"), count)),
        1 => Attr::PermittedSubclasses(repeated(rt, text(rt, b"E"), count)),
        2 => Attr::InnerClasses(repeated(rt, inner_class(rt), count)),
        3 => Attr::Components(components(rt, count)),
        4 => Attr::Components(one(rt, annotated_component(rt, count))),
        5 => Attr::VisibleAnns(repeated(rt, plain, count)),
        6 => Attr::InvisibleAnns(repeated(rt, plain, count)),
        7 => Attr::VisibleParamAnns(list(rt, [none(rt), repeated(rt, plain, count)])),
        8 => Attr::InvisibleParamAnns(list(rt, [none(rt), repeated(rt, plain, count)])),
        9 => Attr::VisibleAnns(one(rt, annotation(rt, elements(rt, count)))),
        _ => {
            let value = constant(b'I', Value::Integer(1));
            Attr::AnnotationDefault(ElemValue::List(repeated(rt, value, count)))
        }
    }
}

fn inner_class<R: Abort + AllocGlobal>(rt: &R) -> InnerEntry {
    InnerEntry {
        inner: text(rt, b"A$B"),
        outer: None,
        name: None,
        flags: 0,
    }
}

fn annotated_component<R: Abort + AllocGlobal>(rt: &R, count: usize) -> ComponentDesc {
    ComponentDesc {
        name: text(rt, b"c"),
        descriptor: text(rt, b"I"),
        attrs: repeated(rt, Attr::Deprecated, count),
    }
}

#[test]
fn fills_lists_of_attributes(rt: HostRuntime) {
    for kind in 0..11 {
        let most = class_of(&rt, one(&rt, with_list(&rt, kind, 65_535)));
        let more = class_of(&rt, one(&rt, with_list(&rt, kind, 65_536)));
        assert!(rt; is_last(&rt, &most, &more, 65_536));
    }
}

/// A class with a list of this length, each list outside attributes in turn.
fn class_with_list<R: Abort + AllocGlobal>(rt: &R, kind: u8, count: usize) -> ClassDesc {
    let plain = class_of(rt, none(rt));
    match kind {
        0 => ClassDesc {
            interfaces: repeated(rt, text(rt, b"I"), count),
            ..plain
        },
        1 => ClassDesc {
            fields: repeated(rt, field(rt, b"f", b"I", none(rt)), count),
            ..plain
        },
        2 => ClassDesc {
            methods: repeated(rt, method(rt, b"m", none(rt)), count),
            ..plain
        },
        3 => ClassDesc {
            attrs: repeated(rt, Attr::Deprecated, count),
            ..plain
        },
        4 => {
            let attrs = repeated(rt, Attr::Deprecated, count);
            ClassDesc {
                fields: one(rt, field(rt, b"f", b"I", attrs)),
                ..plain
            }
        }
        _ => {
            let attrs = repeated(rt, Attr::Deprecated, count);
            ClassDesc {
                methods: one(rt, method(rt, b"m", attrs)),
                ..plain
            }
        }
    }
}

#[test]
fn fills_lists_of_classes(rt: HostRuntime) {
    for kind in 0..6 {
        let most = class_with_list(&rt, kind, 65_535);
        let more = class_with_list(&rt, kind, 65_536);
        assert!(rt; is_last(&rt, &most, &more, 65_536));
    }
}

/// An attribute with an entry for each parameter, each kind in turn.
fn with_parameters<R: Abort + AllocGlobal>(rt: &R, kind: u8, count: usize) -> Attr {
    let unnamed = ParamEntry {
        name: None,
        flags: 0,
    };
    match kind {
        0 => Attr::MethodParameters(repeated(rt, unnamed, count)),
        1 => Attr::VisibleParamAnns(repeated(rt, none(rt), count)),
        _ => Attr::InvisibleParamAnns(repeated(rt, none(rt), count)),
    }
}

#[test]
fn fills_lists_of_parameters(rt: HostRuntime) {
    for kind in 0..3 {
        let most = class_of(&rt, one(&rt, with_parameters(&rt, kind, 255)));
        let more = class_of(&rt, one(&rt, with_parameters(&rt, kind, 256)));
        assert!(rt; is_last(&rt, &most, &more, 256));
    }
}

/// The first of two long lists is told, the outer one before those in its entries.
#[test]
fn tells_the_first_list(rt: HostRuntime) {
    let parameters = with_parameters(&rt, 0, 256);
    let attrs = list(&rt, [with_list(&rt, 0, 65_537), parameters]);
    let refused = write_class(rt.alloc(), &class_of(&rt, attrs)).err();
    assert!(rt; refused == Some(PoolErr::TooMany { count: 65_537 }));
    let inner = repeated(&rt, annotation(&rt, none(&rt)), 65_536);
    let mut lists = Vec::new(rt.alloc());
    lists.push(inner).expect(&rt, "memory");
    for _ in 0..300 {
        lists.push(none(&rt)).expect(&rt, "memory");
    }
    let parameters = Attr::VisibleParamAnns(List::of(lists));
    let refused = write_class(rt.alloc(), &class_of(&rt, one(&rt, parameters))).err();
    assert!(rt; refused == Some(PoolErr::TooMany { count: 301 }));
}
