//! What `ask` tells about class files.
use crate::building::{held_class, words};
use crate::running::{Ran, run_sure, words_of};
use crate::shapes::{Shape, shape_files};
use commands::Status;
use hdr_core::HeldFile;
use std::alloc::Global;
use std::process::Abort;
use std::thread::Threads;

/// The class A of the superclass java/lang/Object, with the constant L and the method m, as `ijar`
/// writes it.
const CONSTANT: &[u8] = b"\xca\xfe\xba\xbe\0\0\0\x3d\0\x0c\
    \x01\0\x01A\x07\0\x01\x01\0\x10java/lang/Object\x07\0\x03\
    \x01\0\x01L\x01\0\x01J\x01\0\x0dConstantValue\x05\0\0\0\0\0\0\0\x05\
    \x01\0\x01m\x01\0\x03()V\
    \0\x21\0\x02\0\x04\0\0\
    \0\x01\0\x19\0\x05\0\x06\0\x01\0\x07\0\0\0\x02\0\x08\
    \0\x01\0\x01\0\x0a\0\x0b\0\0\0\0";

const OBJECT: &str = "java/lang/Object";

/// A class that extends itself.
const RING: &[Shape] = &[Shape {
    flags: 0x21,
    name: "A",
    above: &["A"],
    fields: &[],
    methods: &[],
}];

/// A field that a class declares, a private one of a class below it, and one of an interface.
const FIELDS: &[Shape] = &[
    Shape {
        flags: 0x21,
        name: "A",
        above: &[OBJECT],
        fields: &[(0x01, "x", "I")],
        methods: &[],
    },
    Shape {
        flags: 0x21,
        name: "B",
        above: &["A"],
        fields: &[(0x02, "x", "I")],
        methods: &[],
    },
    Shape {
        flags: 0x21,
        name: "C",
        above: &["B", "N"],
        fields: &[],
        methods: &[],
    },
    Shape {
        flags: 0x0601,
        name: "N",
        above: &[OBJECT],
        fields: &[(0x19, "x", "I")],
        methods: &[],
    },
];

/// A class of two interfaces, each with a default method.
const DEFAULTS: &[Shape] = &[
    Shape {
        flags: 0x21,
        name: "C",
        above: &[OBJECT, "N", "P"],
        fields: &[],
        methods: &[],
    },
    Shape {
        flags: 0x0601,
        name: "N",
        above: &[OBJECT],
        fields: &[],
        methods: &[(0x01, "m", "()V")],
    },
    Shape {
        flags: 0x0601,
        name: "P",
        above: &[OBJECT],
        fields: &[],
        methods: &[(0x01, "m", "()V")],
    },
];

/// The same where the second interface extends the first.
const OVERRIDDEN: &[Shape] = &[
    Shape {
        flags: 0x21,
        name: "C",
        above: &[OBJECT, "N", "P"],
        fields: &[],
        methods: &[],
    },
    Shape {
        flags: 0x0601,
        name: "N",
        above: &[OBJECT],
        fields: &[],
        methods: &[(0x01, "m", "()V")],
    },
    Shape {
        flags: 0x0601,
        name: "P",
        above: &[OBJECT, "N"],
        fields: &[],
        methods: &[(0x01, "m", "()V")],
    },
];

/// Classes of two packages, with members of each access.
const PACKAGES: &[Shape] = &[
    Shape {
        flags: 0x20,
        name: "p/Hidden",
        above: &[OBJECT],
        fields: &[],
        methods: &[],
    },
    Shape {
        flags: 0x21,
        name: "p/Open",
        above: &[OBJECT],
        fields: &[(0x04, "low", "I"), (0x00, "near", "I")],
        methods: &[(0x01, "<init>", "()V")],
    },
    Shape {
        flags: 0x21,
        name: "q/Below",
        above: &["p/Open"],
        fields: &[],
        methods: &[],
    },
];

/// Questions about the classes in the folder `in`, and the lines that answer them.
struct Row {
    shapes: &'static [Shape],
    words: &'static str,
    told: &'static str,
}

const ROWS: &[Row] = &[
    Row {
        shapes: RING,
        words: "ask --classes in --field A#x:I",
        told: "field A#x:I cycle A\n",
    },
    Row {
        shapes: FIELDS,
        words: "ask --classes in --field C#x:I",
        told: "field C#x:I found N 0019 I\n",
    },
    Row {
        shapes: DEFAULTS,
        words: "ask --classes in --method C#m:()V --imethod C#m:()V",
        told: "method C#m:()V found N 0001 ()V\nimethod C#m:()V wrong-kind\n",
    },
    Row {
        shapes: OVERRIDDEN,
        words: "ask --classes in --method C#m:()V --imethod C#m:()V",
        told: "method C#m:()V found P 0001 ()V\nimethod C#m:()V wrong-kind\n",
    },
    // The questions in their order, also one that is put twice, and options between them.
    Row {
        shapes: FIELDS,
        words: "ask --type N --supers C --classes in --type N --workers 64 --type Q",
        told: "type N found 0601\nsupers C found B N\ntype N found 0601\ntype Q not-found\n",
    },
    // Who asks: outside the package, in it, and below a class of it.
    Row {
        shapes: PACKAGES,
        words: "ask --classes in --type p/Hidden --field p/Open#low:I --field p/Open#near:I",
        told: "type p/Hidden not-accessible p/Hidden\n\
            field p/Open#low:I not-accessible p/Open\n\
            field p/Open#near:I not-accessible p/Open\n",
    },
    Row {
        shapes: PACKAGES,
        words: "ask --from p --classes in --type p/Hidden --field p/Open#low:I \
            --field p/Open#near:I",
        told: "type p/Hidden found 0020\n\
            field p/Open#low:I found p/Open 0004 I\n\
            field p/Open#near:I found p/Open 0000 I\n",
    },
    Row {
        shapes: PACKAGES,
        words: "ask --under q/Below --classes in --field p/Open#low:I --field p/Open#near:I",
        told: "field p/Open#low:I found p/Open 0004 I\n\
            field p/Open#near:I not-accessible p/Open\n",
    },
    // No class at all.
    Row {
        shapes: &[],
        words: "ask --classes in --type java/lang/Object --method A#m:()V",
        told: "type java/lang/Object not-found\nmethod A#m:()V not-found\n",
    },
];

/// The lines were told, and nothing else was done.
fn check_answers<R: Abort>(rt: &R, ran: &Ran, told: &str) {
    assert!(rt; ran.status == Status::Done);
    assert!(rt; ran.out.told() == told.as_bytes());
    assert!(rt; ran.err.told().is_empty());
    assert!(rt; ran.outs.written().is_empty());
}

fn check_rows<R: Abort + Threads + Sync>(rt: &R, alloc: Global, rows: &[Row]) {
    for row in rows {
        let words = words(rt, alloc, row.words);
        let files = shape_files(rt, alloc, "in", row.shapes);
        let ran = run_sure(rt, alloc, &words, files);
        check_answers(rt, &ran, row.told);
    }
}

#[test]
fn answers_questions(rt: HostRuntime) {
    check_rows(&rt, rt.alloc(), ROWS);
}

fn one_file(rt: &impl Abort, alloc: Global, path: &str, bytes: &[u8]) -> Vec<HeldFile> {
    let mut files = Vec::new(alloc);
    let file = HeldFile {
        path: String::from_str(alloc, path).expect(rt, "memory"),
        bytes: Vec::from_slice(alloc, bytes).expect(rt, "memory"),
    };
    files.push(file).expect(rt, "memory");
    files
}

#[test]
fn answers_over_what_was_written(rt: HostRuntime) {
    let line = "ask --classes out --constant A#L --supers A --type B --method A#m:()V";
    let words = words(&rt, rt.alloc(), line);
    let files = one_file(&rt, rt.alloc(), "out/A.class", CONSTANT);
    let ran = run_sure(&rt, rt.alloc(), &words, files);
    let told = "constant A#L found long 5\nsupers A found java/lang/Object\ntype B not-found\n\
        method A#m:()V found A 0001 ()V\n";
    check_answers(&rt, &ran, told);
}

fn copied(rt: &impl Abort, alloc: Global, files: &[HeldFile]) -> Vec<HeldFile> {
    let mut copies = Vec::new(alloc);
    for file in files {
        let copy = HeldFile {
            path: String::from_str(alloc, file.path.as_str()).expect(rt, "memory"),
            bytes: Vec::from_slice(alloc, &file.bytes).expect(rt, "memory"),
        };
        copies.push(copy).expect(rt, "memory");
    }
    copies
}

/// What is found in classes is found in those that `ijar` writes of them.
#[test]
fn answers_the_same_over_stripped_classes(rt: HostRuntime) {
    let strip = words_of(
        &rt,
        rt.alloc(),
        &["ijar", "--input", "in", "--output", "out"],
    );
    let files = shape_files(&rt, rt.alloc(), "in", FIELDS);
    let stripped = run_sure(&rt, rt.alloc(), &strip, files);
    let ask = words_of(
        &rt,
        rt.alloc(),
        &["ask", "--classes", "out", "--field", "C#x:I"],
    );
    let files = copied(&rt, rt.alloc(), stripped.outs.written());
    let ran = run_sure(&rt, rt.alloc(), &ask, files);
    check_answers(&rt, &ran, "field C#x:I found N 0019 I\n");
}

/// Files of a path each, which hold the class of a name, and what is told of a question. A text
/// that isn't empty is told on standard error, and then no line is.
struct Folder {
    files: &'static [(&'static str, &'static str)],
    words: &'static str,
    lines: &'static str,
    diagnosed: &'static str,
}

const FOLDERS: &[Folder] = &[
    // The descriptions of modules are not looked at, nor what stands in META-INF.
    Folder {
        files: &[
            ("in/A.class", "A"),
            ("in/META-INF/B.class", ""),
            ("in/module-info.class", ""),
            ("in/p/module-info.class", "A"),
        ],
        words: "ask --classes in --type A",
        lines: "type A found 0021\n",
        diagnosed: "",
    },
    Folder {
        files: &[("in/module-info.class", "A")],
        words: "ask --classes in/module-info.class --type A",
        lines: "type A not-found\n",
        diagnosed: "",
    },
    // A file whose name only ends so is a class as any other.
    Folder {
        files: &[("in/xmodule-info.class", "A")],
        words: "ask --classes in --type A",
        lines: "type A found 0021\n",
        diagnosed: "",
    },
    // Several roots, and one path under two of them.
    Folder {
        files: &[("a/A.class", "A"), ("b/B.class", "B")],
        words: "ask --classes a --classes b/ --classes b --type B --type A",
        lines: "type B found 0021\ntype A found 0021\n",
        diagnosed: "",
    },
    // Format comes before names that are declared twice, and either before any answer.
    Folder {
        files: &[("in/A.class", "A"), ("in/B.class", ""), ("in/C.class", "A")],
        words: "ask --classes in --type A",
        lines: "",
        diagnosed: "in/B.class:0: F1 class file is cut short\n",
    },
    Folder {
        files: &[
            ("in/A.class", "A"),
            ("in/B.class", "A"),
            ("in/C.class", "C"),
        ],
        words: "ask --classes in --type C",
        lines: "",
        diagnosed: "in/B.class:0: C1 declared twice: A\n",
    },
];

fn check_folders<R: Abort + Threads + Sync>(rt: &R, alloc: Global, rows: &[Folder]) {
    for row in rows {
        let mut files = Vec::new(alloc);
        for (path, name) in row.files {
            files
                .push(held_class(rt, alloc, path, name))
                .expect(rt, "memory");
        }
        let ran = run_sure(rt, alloc, &words(rt, alloc, row.words), files);
        let status = if row.diagnosed.is_empty() {
            Status::Done
        } else {
            Status::Diagnosed
        };
        assert!(rt; ran.status == status, "{}", row.words);
        assert!(rt; ran.out.told() == row.lines.as_bytes());
        assert!(rt; ran.err.told() == row.diagnosed.as_bytes());
        assert!(rt; ran.outs.written().is_empty());
    }
}

#[test]
fn reads_classes_alone(rt: HostRuntime) {
    check_folders(&rt, rt.alloc(), FOLDERS);
}

/// A class whose name is that of no file can be read, and is written by no question.
#[test]
fn answers_without_limits_of_what_is_written(rt: HostRuntime) {
    let mut files = shape_files(&rt, rt.alloc(), "in", RING);
    let mut bytes = Vec::from_slice(
        rt.alloc(),
        b"\xca\xfe\xba\xbe\0\0\0\x3d\0\x05\x01\0\x03",
    ).expect(&rt, "memory");
    bytes
        .extend_from_slice(b"\xed\xa0\xb5\x07\0\x01\x01\0\x10java/lang/Object\x07\0\x03")
        .expect(&rt, "memory");
    bytes
        .extend_from_slice(b"\0\x21\0\x02\0\x04\0\0\0\0\0\0\0\0")
        .expect(&rt, "memory");
    let path = String::from_str(rt.alloc(), "in/B.class").expect(&rt, "memory");
    files.push(HeldFile { path, bytes }).expect(&rt, "memory");
    let words = words_of(&rt, rt.alloc(), &["ask", "--classes", "in", "--type", "A"]);
    let ran = run_sure(&rt, rt.alloc(), &words, files);
    check_answers(&rt, &ran, "type A found 0021\n");
}
