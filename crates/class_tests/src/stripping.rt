//! What stripping leaves of classes that no file spells: two entries of one inner class, and a
//! malformed name.
use crate::building::{class_of, list, method, none, one, text};
use class_desc::{Attr, ClassDesc, InnerEntry};
use hdr_core::List;
use ijar_strip::{into_all_stripped, into_stripped, strip, strip_all};
use std::process::Abort;

/// The entries of these classes, each with its outer class.
fn entries<R: Abort + AllocGlobal>(rt: &R, rows: &[(&[u8], Option<&[u8]>)]) -> List<InnerEntry> {
    let mut entries = Vec::new(rt.alloc());
    for (inner, outer) in rows {
        let entry = InnerEntry {
            inner: text(rt, inner),
            outer: outer.map(|name| text(rt, name)),
            name: None,
            flags: 0x0001,
        };
        entries.push(entry).expect(rt, "memory");
    }
    List::of(entries)
}

/// The classes of the entries of an InnerClasses.
fn classes_of<R: Abort + AllocGlobal>(rt: &R, class: &ClassDesc) -> Vec<u8> {
    let mut told = Vec::new(rt.alloc());
    for attribute in class.attrs.items() {
        if let Attr::InnerClasses(entries) = attribute {
            for entry in entries.items() {
                told.extend_from_slice(entry.inner.bytes())
                    .expect(rt, "memory");
            }
        }
    }
    told
}

/// Each stays: it is the superclass or its encloser, or has the name of one that stays.
#[test]
fn keeps_entries_of_one_class(rt: HostRuntime) {
    let cases: [(&[(&[u8], Option<&[u8]>)], &[u8]); 2] = [
        (
            &[
                (b"B", Some(b"X")),
                (b"C", Some(b"B")),
                (b"B", Some(b"D")),
                (b"D", Some(b"Y")),
            ],
            b"BCBD",
        ),
        (&[(b"C", None), (b"C", Some(b"B")), (b"B", None)], b"CCB"),
    ];
    for (rows, left) in cases {
        let class = ClassDesc {
            super_name: Some(text(&rt, b"C")),
            ..class_of(&rt, one(&rt, Attr::InnerClasses(entries(&rt, rows))))
        };
        let copied = strip(rt.alloc(), &class).expect(&rt, "memory");
        assert!(rt; classes_of(&rt, &copied).as_slice() == left);
        let moved = into_stripped(rt.alloc(), class).expect(&rt, "memory");
        assert!(rt; classes_of(&rt, &moved).as_slice() == left);
    }
}

/// The class initialiser is known by its whole name.
#[test]
fn keeps_methods_of_like_names(rt: HostRuntime) {
    let methods = [
        method(&rt, b"clinit", none(&rt)),
        method(&rt, b"<clinit", none(&rt)),
    ];
    let class = ClassDesc {
        methods: list(&rt, methods),
        ..class_of(&rt, none(&rt))
    };
    let left = strip(rt.alloc(), &class).expect(&rt, "memory");
    assert_eq!(rt; left.methods.len(), 2);
    let left = into_stripped(rt.alloc(), class).expect(&rt, "memory");
    assert_eq!(rt; left.methods.len(), 2);
}

/// Whether of two classes the first alone is left, with an InnerClasses that has an entry of A.
fn is_first_left<R: Abort + AllocGlobal>(rt: &R, left: &[Option<ClassDesc>]) -> bool {
    match left {
        [Some(class), None] => classes_of(rt, class).as_slice() == b"A".as_slice(),
        _ => false,
    }
}

/// The first InnerClasses tells of a class whether it is local, by any of its entries.
#[test]
fn removes_a_class_by_any_entry_of_its_first_list(rt: HostRuntime) {
    let lists = [
        Attr::InnerClasses(none(&rt)),
        Attr::InnerClasses(entries(&rt, &[(b"A", None)])),
    ];
    let named = class_of(&rt, list(&rt, lists));
    let twice = entries(&rt, &[(b"B", Some(b"C")), (b"B", None)]);
    let local = ClassDesc {
        name: text(&rt, b"B"),
        ..class_of(&rt, one(&rt, Attr::InnerClasses(twice)))
    };
    let classes = list(&rt, [named, local]).into_items();
    let copied = strip_all(rt.alloc(), &classes).expect(&rt, "memory");
    assert!(rt; is_first_left(&rt, &copied));
    let moved = into_all_stripped(rt.alloc(), classes).expect(&rt, "memory");
    assert!(rt; is_first_left(&rt, &moved));
}
