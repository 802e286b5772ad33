//! Folders of class files, and what comes of them.
use crate::building::{class_file, words};
use crate::running::run_sure;
use commands::Status;
use hdr_core::HeldFile;
use std::alloc::Global;
use std::process::Abort;
use std::thread::Threads;

/// What a file holds: the class of a name, as it may be read or as it is written, or a text.
enum Holds {
    Class(&'static str),
    Written(&'static str),
    Text(&'static str),
}

use Holds::{Class, Text, Written};

/// The words of `ijar`, the files, and what is told, or else the files that are written.
struct Row {
    words: &'static str,
    files: &'static [(&'static str, Holds)],
    told: &'static str,
    written: &'static [(&'static str, Holds)],
}

const ONE: &str = "ijar --input in --output out";

const TWO: &str = "ijar --input a --input b --output out";

const NAMES: &[Row] = &[
    // No file at all, no class file, none below the root.
    Row {
        words: ONE,
        files: &[],
        told: "",
        written: &[],
    },
    Row {
        words: ONE,
        files: &[("in/A.java", Class("A")), ("in.class", Class("A"))],
        told: "",
        written: &[],
    },
    // By their own names, in the order of these.
    Row {
        words: ONE,
        files: &[("in/X.class", Class("B")), ("in/Y.class", Class("A"))],
        told: "",
        written: &[("out/A.class", Written("A")), ("out/B.class", Written("B"))],
    },
    Row {
        words: ONE,
        files: &[("in/A.class", Class("p/q/A")), ("in/p/A.class", Class("A"))],
        told: "",
        written: &[
            ("out/A.class", Written("A")),
            ("out/p/q/A.class", Written("p/q/A")),
        ],
    },
    Row {
        words: ONE,
        files: &[("in/A.class", Class("a/B")), ("in/B.class", Class("a-b"))],
        told: "",
        written: &[
            ("out/a-b.class", Written("a-b")),
            ("out/a/B.class", Written("a/B")),
        ],
    },
];

const META_INF: &[Row] = &[
    // META-INF as a folder, as a file, as the root, above the root.
    Row {
        words: ONE,
        files: &[
            ("in/META-INF/A.class", Class("A")),
            ("in/p/META-INF/q/B.class", Class("B")),
            ("in/META-INF.class", Class("C")),
        ],
        told: "",
        written: &[("out/C.class", Written("C"))],
    },
    Row {
        words: "ijar --input in/META-INF --output out",
        files: &[("in/META-INF/A.class", Class("A"))],
        told: "",
        written: &[("out/A.class", Written("A"))],
    },
    Row {
        words: "ijar --input META-INF/in --output out",
        files: &[
            ("META-INF/in/A.class", Class("A")),
            ("META-INF/in/META-INF/B.class", Class("B")),
        ],
        told: "",
        written: &[("out/A.class", Written("A"))],
    },
    // A path is used under the first root that uses it.
    Row {
        words: "ijar --input in --input in/META-INF --output out",
        files: &[("in/META-INF/A.class", Class("A"))],
        told: "",
        written: &[("out/A.class", Written("A"))],
    },
    Row {
        words: "ijar --input in --input in --output out",
        files: &[("in/A.class", Class("A"))],
        told: "",
        written: &[("out/A.class", Written("A"))],
    },
    Row {
        words: "ijar --input in/p --input in --output out",
        files: &[("in/p/A.class", Class("A")), ("in/B.class", Class("B"))],
        told: "",
        written: &[("out/A.class", Written("A")), ("out/B.class", Written("B"))],
    },
];

const FILES: &[Row] = &[
    // A root that is a file.
    Row {
        words: "ijar --input in/A.class --output out",
        files: &[
            ("in/A.class", Class("A")),
            ("in/A.class/B.class", Class("B")),
        ],
        told: "",
        written: &[("out/A.class", Written("A")), ("out/B.class", Written("B"))],
    },
    Row {
        words: "ijar --input META-INF/A.class --output out",
        files: &[("META-INF/A.class", Class("A"))],
        told: "",
        written: &[("out/A.class", Written("A"))],
    },
    Row {
        words: "ijar --input in/A.java --output out",
        files: &[("in/A.java", Class("A"))],
        told: "",
        written: &[],
    },
    // What is no class, in the order of the files.
    Row {
        words: ONE,
        files: &[("in/B.class", Text("")), ("in/A.class", Class("A"))],
        told: "in/B.class:0: F1 class file is cut short\n",
        written: &[],
    },
    Row {
        words: "ijar --input b --input a --output out",
        files: &[("a/A.class", Text("x")), ("b/B.class", Text("x"))],
        told: "b/B.class:0: F1 class file is cut short\na/A.class:0: F1 class file is cut short\n",
        written: &[],
    },
];

const REPEATED: &[Row] = &[
    // One name twice, thrice, at two roots; no case is folded.
    Row {
        words: ONE,
        files: &[("in/A.class", Class("A")), ("in/B.class", Class("A"))],
        told: "in/B.class:0: C1 declared twice: A\n",
        written: &[],
    },
    Row {
        words: ONE,
        files: &[
            ("in/A.class", Class("A")),
            ("in/B.class", Class("B")),
            ("in/C.class", Class("A")),
            ("in/D.class", Class("A")),
        ],
        told: "in/C.class:0: C1 declared twice: A\nin/D.class:0: C1 declared twice: A\n",
        written: &[],
    },
    Row {
        words: TWO,
        files: &[("a/p/A.class", Class("p/A")), ("b/p/A.class", Class("p/A"))],
        told: "b/p/A.class:0: C1 declared twice: p/A\n",
        written: &[],
    },
    Row {
        words: ONE,
        files: &[("in/A.class", Class("A")), ("in/a.class", Class("a"))],
        told: "",
        written: &[("out/A.class", Written("A")), ("out/a.class", Written("a"))],
    },
    Row {
        words: "ijar --input in --input ./in --output out",
        files: &[("in/A.class", Class("A")), ("./in/A.class", Class("A"))],
        told: "./in/A.class:0: C1 declared twice: A\n",
        written: &[],
    },
    // Two phases at once: the first is told.
    Row {
        words: ONE,
        files: &[
            ("in/A.class", Class("A")),
            ("in/B.class", Class("A")),
            ("in/C.class", Text("x")),
        ],
        told: "in/C.class:0: F1 class file is cut short\n",
        written: &[],
    },
];

const MODULES: &[Row] = &[
    // Modules: copied as they are, also if they are no class, to the path below their root.
    Row {
        words: ONE,
        files: &[("in/module-info.class", Text("m"))],
        told: "",
        written: &[("out/module-info.class", Text("m"))],
    },
    Row {
        words: ONE,
        files: &[
            ("in/m/module-info.class", Text("")),
            ("in/A.class", Class("A")),
        ],
        told: "",
        written: &[
            ("out/A.class", Written("A")),
            ("out/m/module-info.class", Text("")),
        ],
    },
    Row {
        words: "ijar --input in/module-info.class --output out",
        files: &[("in/module-info.class", Text("m"))],
        told: "",
        written: &[("out/module-info.class", Text("m"))],
    },
    Row {
        words: ONE,
        files: &[("in/META-INF/module-info.class", Text("m"))],
        told: "",
        written: &[],
    },
    Row {
        words: ONE,
        files: &[("in/module-info.class", Class("A"))],
        told: "",
        written: &[("out/module-info.class", Class("A"))],
    },
    Row {
        words: ONE,
        files: &[("in/xmodule-info.class", Class("A"))],
        told: "",
        written: &[("out/A.class", Written("A"))],
    },
];

const MODULE_PATHS: &[Row] = &[
    Row {
        words: ONE,
        files: &[("in/xmodule-info.class", Text("m"))],
        told: "in/xmodule-info.class:0: F1 class file is cut short\n",
        written: &[],
    },
    Row {
        words: ONE,
        files: &[("in/module-info.class/A.class", Class("A"))],
        told: "",
        written: &[("out/A.class", Written("A"))],
    },
    Row {
        words: TWO,
        files: &[
            ("a/module-info.class", Text("m")),
            ("b/module-info.class", Text("n")),
        ],
        told: "b/module-info.class:0: C1 declared twice: module-info\n",
        written: &[],
    },
    Row {
        words: TWO,
        files: &[
            ("a/m/module-info.class", Text("m")),
            ("b/n/module-info.class", Text("n")),
        ],
        told: "",
        written: &[
            ("out/m/module-info.class", Text("m")),
            ("out/n/module-info.class", Text("n")),
        ],
    },
    Row {
        words: "ijar --input in/m/module-info.class --input in/n --output out",
        files: &[
            ("in/m/module-info.class", Text("m")),
            ("in/n/module-info.class", Text("n")),
        ],
        told: "in/n/module-info.class:0: C1 declared twice: module-info\n",
        written: &[],
    },
];

const NO_CHANGE: &[Row] = &[
    // A class named as a module's path.
    Row {
        words: ONE,
        files: &[
            ("in/A.class", Class("module-info")),
            ("in/module-info.class", Text("m")),
        ],
        told: "in/module-info.class:0: C1 declared twice: module-info\n",
        written: &[],
    },
    Row {
        words: ONE,
        files: &[
            ("in/m/module-info.class", Text("m")),
            ("in/z.class", Class("m/module-info")),
        ],
        told: "in/z.class:0: C1 declared twice: m/module-info\n",
        written: &[],
    },
    Row {
        words: ONE,
        files: &[("in/A.class", Class("module-info"))],
        told: "",
        written: &[("out/module-info.class", Written("module-info"))],
    },
    // The output below the input, and the number of workers, change nothing.
    Row {
        words: "ijar --input in --output in/out --workers 64",
        files: &[("in/A.class", Class("A")), ("in/out/B.class", Class("B"))],
        told: "",
        written: &[
            ("in/out/A.class", Written("A")),
            ("in/out/B.class", Written("B")),
        ],
    },
    // Bytes above ASCII in paths of modules.
    Row {
        words: ONE,
        files: &[("in/\u{e9}\u{1d54f}/module-info.class", Text("m"))],
        told: "",
        written: &[("out/\u{e9}\u{1d54f}/module-info.class", Text("m"))],
    },
];

fn bytes_of(rt: &impl Abort, alloc: Global, holds: &Holds) -> Vec<u8> {
    match holds {
        Class(name) => class_file(rt, alloc, name, false),
        Written(name) => class_file(rt, alloc, name, true),
        Text(text) => Vec::from_slice(alloc, text.as_bytes()).expect(rt, "memory"),
    }
}

fn held(rt: &impl Abort, alloc: Global, row: &Row) -> Vec<HeldFile> {
    let mut files = Vec::new(alloc);
    for (path, holds) in row.files {
        let path = String::from_str(alloc, path).expect(rt, "memory");
        let bytes = bytes_of(rt, alloc, holds);
        files.push(HeldFile { path, bytes }).expect(rt, "memory");
    }
    files
}

fn check_written<R: Abort>(rt: &R, alloc: Global, row: &Row, written: &[HeldFile]) {
    assert!(rt; written.len() == row.written.len(), "{}", row.words);
    for ((path, holds), file) in row.written.iter().zip(written) {
        assert!(rt; file.path.as_str() == *path);
        assert!(rt; file.bytes == bytes_of(rt, alloc, holds));
    }
}

fn check_row<R: Abort + Threads + Sync>(rt: &R, alloc: Global, row: &Row) {
    let words = words(rt, alloc, row.words);
    let ran = run_sure(rt, alloc, &words, held(rt, alloc, row));
    assert!(rt; ran.err.told() == row.told.as_bytes());
    let status = if row.told.is_empty() {
        Status::Done
    } else {
        Status::Diagnosed
    };
    assert!(rt; ran.status == status);
    check_written(rt, alloc, row, ran.outs.written());
}

fn check_rows<R: Abort + Threads + Sync>(rt: &R, alloc: Global, rows: &[Row]) {
    for row in rows {
        check_row(rt, alloc, row);
    }
}

#[test]
fn takes_classes_by_their_names(rt: HostRuntime) {
    check_rows(&rt, rt.alloc(), NAMES);
}

#[test]
fn takes_each_path_once_and_none_of_meta_inf(rt: HostRuntime) {
    check_rows(&rt, rt.alloc(), META_INF);
}

#[test]
fn takes_roots_that_are_files(rt: HostRuntime) {
    check_rows(&rt, rt.alloc(), FILES);
}

#[test]
fn tells_names_declared_twice(rt: HostRuntime) {
    check_rows(&rt, rt.alloc(), REPEATED);
}

#[test]
fn copies_modules(rt: HostRuntime) {
    check_rows(&rt, rt.alloc(), MODULES);
}

#[test]
fn copies_modules_by_their_paths(rt: HostRuntime) {
    check_rows(&rt, rt.alloc(), MODULE_PATHS);
}

#[test]
fn takes_outputs_below_inputs(rt: HostRuntime) {
    check_rows(&rt, rt.alloc(), NO_CHANGE);
}
