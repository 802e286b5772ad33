//! Classes with attributes that are kept, and classes that an attribute removes.
use crate::running::{Ran, run_sure, words_of};
use commands::Status;
use hdr_core::HeldFile;
use std::alloc::Global;
use std::process::Abort;
use std::thread::Threads;

/// A of a constant of type long, a private method, a class initialiser and a public method, each
/// method with its code.
const LONG: &[u8] = b"\xca\xfe\xba\xbe\0\0\0\x3d\0\x0f\
    \x07\0\x02\x01\0\x01A\x07\0\x04\x01\0\x10java/lang/Object\x01\0\x01L\x01\0\x01J\
    \x01\0\x0dConstantValue\x05\0\0\0\0\0\0\0\x05\x01\0\x01p\x01\0\x03()V\x01\0\x04Code\
    \x01\0\x08<clinit>\x01\0\x01m\
    \0\x21\0\x01\0\x03\0\0\
    \0\x01\0\x19\0\x05\0\x06\0\x01\0\x07\0\0\0\x02\0\x08\
    \0\x03\
    \0\x02\0\x0a\0\x0b\0\x01\0\x0c\0\0\0\x0d\0\0\0\x01\0\0\0\x01\xb1\0\0\0\0\
    \0\x08\0\x0d\0\x0b\0\x01\0\x0c\0\0\0\x0d\0\0\0\0\0\0\0\x01\xb1\0\0\0\0\
    \0\x01\0\x0e\0\x0b\0\x01\0\x0c\0\0\0\x0d\0\0\0\x01\0\0\0\x01\xb1\0\0\0\0\
    \0\0";

/// The constant and the public method.
const LONG_STRIPPED: &[u8] = b"\xca\xfe\xba\xbe\0\0\0\x3d\0\x0c\
    \x01\0\x01A\x07\0\x01\x01\0\x10java/lang/Object\x07\0\x03\x01\0\x01L\x01\0\x01J\
    \x01\0\x0dConstantValue\x05\0\0\0\0\0\0\0\x05\x01\0\x01m\x01\0\x03()V\
    \0\x21\0\x02\0\x04\0\0\
    \0\x01\0\x19\0\x05\0\x06\0\x01\0\x07\0\0\0\x02\0\x08\
    \0\x01\0\x01\0\x0a\0\x0b\0\0\0\0";

/// A of a constant of type double, a NaN of these bits, and a NaN of type float that nothing names.
const DOUBLE: &[u8] = b"\xca\xfe\xba\xbe\0\0\0\x3d\0\x0b\
    \x07\0\x02\x01\0\x01A\x07\0\x04\x01\0\x10java/lang/Object\x04\x7f\xc0\0\x01\
    \x01\0\x03NAN\x01\0\x01D\x01\0\x0dConstantValue\x06\x7f\xf8\0\0\0\0\0\x01\
    \0\x21\0\x01\0\x03\0\0\
    \0\x01\0\x19\0\x06\0\x07\0\x01\0\x08\0\0\0\x02\0\x09\
    \0\0\0\0";

/// The same bits, and no float.
const DOUBLE_STRIPPED: &[u8] = b"\xca\xfe\xba\xbe\0\0\0\x3d\0\x0a\
    \x01\0\x01A\x07\0\x01\x01\0\x10java/lang/Object\x07\0\x03\
    \x01\0\x03NAN\x01\0\x01D\x01\0\x0dConstantValue\x06\x7f\xf8\0\0\0\0\0\x01\
    \0\x21\0\x02\0\x04\0\0\
    \0\x01\0\x19\0\x05\0\x06\0\x01\0\x07\0\0\0\x02\0\x08\
    \0\0\0\0";

/// A, which lists the anonymous class `A$1`.
const AROUND: &[u8] = b"\xca\xfe\xba\xbe\0\0\0\x3d\0\x08\
    \x01\0\x01A\x07\0\x01\x01\0\x10java/lang/Object\x07\0\x03\
    \x01\0\x0cInnerClasses\x01\0\x03A$1\x07\0\x06\
    \0\x21\0\x02\0\x04\0\0\0\0\0\0\
    \0\x01\0\x05\0\0\0\x0a\0\x01\0\x07\0\0\0\0\0\0";

/// A without that list.
const AROUND_STRIPPED: &[u8] = b"\xca\xfe\xba\xbe\0\0\0\x3d\0\x05\
    \x01\0\x01A\x07\0\x01\x01\0\x10java/lang/Object\x07\0\x03\
    \0\x21\0\x02\0\x04\0\0\0\0\0\0\0\0";

/// The anonymous class `A$1`, as the product writes it.
const ANONYMOUS: &[u8] = b"\xca\xfe\xba\xbe\0\0\0\x3d\0\x06\
    \x01\0\x03A$1\x07\0\x01\x01\0\x10java/lang/Object\x07\0\x03\x01\0\x0cInnerClasses\
    \0\x20\0\x02\0\x04\0\0\0\0\0\0\
    \0\x01\0\x05\0\0\0\x0a\0\x01\0\x02\0\0\0\0\0\0";

/// B, which extends `A$1`, as the product writes it.
const HEIR: &[u8] = b"\xca\xfe\xba\xbe\0\0\0\x3d\0\x05\
    \x01\0\x01B\x07\0\x01\x01\0\x03A$1\x07\0\x03\
    \0\x21\0\x02\0\x04\0\0\0\0\0\0\0\0";

/// An anonymous class whose name is half of a pair of surrogates.
const NAMELESS: &[u8] = b"\xca\xfe\xba\xbe\0\0\0\x3d\0\x06\
    \x01\0\x03\xed\xa0\xb5\x07\0\x01\x01\0\x10java/lang/Object\x07\0\x03\x01\0\x0cInnerClasses\
    \0\x20\0\x02\0\x04\0\0\0\0\0\0\
    \0\x01\0\x05\0\0\0\x0a\0\x01\0\x02\0\0\0\0\0\0";

/// Files by their paths: what is read, what is written, and what is told.
#[derive(Drop)]
struct Row {
    read: &'static [(&'static str, &'static [u8])],
    written: &'static [(&'static str, &'static [u8])],
    told: &'static str,
}

/// Runs `ijar` on files below `in`.
fn run_on<R: Abort + Threads + Sync>(
    rt: &R,
    alloc: Global,
    read: &[(&'static str, &'static [u8])],
) -> Ran {
    let words = words_of(rt, alloc, &["ijar", "--input", "in", "--output", "out"]);
    let mut files = Vec::new(alloc);
    for (path, bytes) in read {
        let file = HeldFile {
            path: String::from_str(alloc, path).expect(rt, "memory"),
            bytes: Vec::from_slice(alloc, bytes).expect(rt, "memory"),
        };
        files.push(file).expect(rt, "memory");
    }
    run_sure(rt, alloc, &words, files)
}

fn check<R: Abort + Threads + Sync>(rt: &R, alloc: Global, row: &Row) {
    let ran = run_on(rt, alloc, row.read);
    let status = if row.told.is_empty() {
        Status::Done
    } else {
        Status::Diagnosed
    };
    assert!(rt; ran.status == status);
    assert!(rt; ran.err.told() == row.told.as_bytes());
    let written = ran.outs.written();
    assert!(rt; written.len() == row.written.len());
    for (file, (path, bytes)) in written.iter().zip(row.written) {
        assert!(rt; file.path.as_str() == *path);
        assert!(rt; file.bytes.as_slice() == *bytes);
    }
}

#[test]
fn keeps_constants_by_their_bits(rt: HostRuntime) {
    let rows = [
        Row {
            read: &[("in/A.class", LONG)],
            written: &[("out/A.class", LONG_STRIPPED)],
            told: "",
        },
        Row {
            read: &[("in/A.class", DOUBLE)],
            written: &[("out/A.class", DOUBLE_STRIPPED)],
            told: "",
        },
    ];
    for row in &rows {
        check(&rt, rt.alloc(), row);
    }
}

/// An anonymous class goes, unless a class that stays extends it. What is removed has no limits,
/// but a name of its own.
#[test]
fn removes_anonymous_classes(rt: HostRuntime) {
    let rows = [
        Row {
            read: &[("in/A.class", AROUND), ("in/A$1.class", ANONYMOUS)],
            written: &[("out/A.class", AROUND_STRIPPED)],
            told: "",
        },
        Row {
            read: &[
                ("in/A.class", AROUND),
                ("in/A$1.class", ANONYMOUS),
                ("in/B.class", HEIR),
            ],
            written: &[
                ("out/A$1.class", ANONYMOUS),
                ("out/A.class", AROUND_STRIPPED),
                ("out/B.class", HEIR),
            ],
            told: "",
        },
        Row {
            read: &[("in/A.class", AROUND), ("in/N.class", NAMELESS)],
            written: &[("out/A.class", AROUND_STRIPPED)],
            told: "",
        },
        Row {
            read: &[("in/A.class", ANONYMOUS), ("in/B.class", ANONYMOUS)],
            written: &[],
            told: "in/B.class:0: C1 declared twice: A$1\n",
        },
    ];
    for row in &rows {
        check(&rt, rt.alloc(), row);
    }
}
