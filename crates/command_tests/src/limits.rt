//! Limits of a job, made small.
use crate::building::held_class;
use commands::strip_inputs;
use file_contents::Limits;
use hdr_core::{Diag, HeldFile, SureFiles, SureSink, print_diags};
use std::alloc::Global;
use std::process::Abort;
use used_files::Stop;

/// The files that may be used, the bytes that they may have, what is told, and how many files are
/// made. Each class has 53 bytes.
struct Row {
    files: u32,
    bytes: u32,
    paths: &'static [(&'static str, &'static str)],
    told: &'static str,
    made: usize,
}

const THREE: &[(&str, &str)] = &[("a/A.class", "A"), ("a/B.class", "B"), ("b/C.class", "C")];

const BROKEN: &[(&str, &str)] = &[("a/A.class", "A"), ("a/B.class", ""), ("b/C.class", "C")];

const TWICE: &[(&str, &str)] = &[("a/A.class", "A"), ("a/B.class", "A"), ("b/C.class", "C")];

const MANY: &str = "a/A.class:0: L8 more than 1048576 files\n";

const ROWS: &[Row] = &[
    Row {
        files: 3,
        bytes: 159,
        paths: THREE,
        told: "",
        made: 3,
    },
    Row {
        files: 2,
        bytes: 159,
        paths: THREE,
        told: MANY,
        made: 0,
    },
    Row {
        files: 0,
        bytes: 0,
        paths: THREE,
        told: MANY,
        made: 0,
    },
    Row {
        files: 0,
        bytes: 0,
        paths: &[],
        told: "",
        made: 0,
    },
    // At the file that passes the sum, and no later one.
    Row {
        files: 3,
        bytes: 158,
        paths: THREE,
        told: "b/C.class:0: L7 more than 1073741824 bytes in all\n",
        made: 0,
    },
    Row {
        files: 3,
        bytes: 105,
        paths: THREE,
        told: "a/B.class:0: L7 more than 1073741824 bytes in all\n",
        made: 0,
    },
    Row {
        files: 3,
        bytes: 52,
        paths: THREE,
        told: "a/A.class:0: L7 more than 1073741824 bytes in all\n",
        made: 0,
    },
    // Before the format and before names.
    Row {
        files: 3,
        bytes: 105,
        paths: BROKEN,
        told: "b/C.class:0: L7 more than 1073741824 bytes in all\n",
        made: 0,
    },
    Row {
        files: 3,
        bytes: 158,
        paths: TWICE,
        told: "b/C.class:0: L7 more than 1073741824 bytes in all\n",
        made: 0,
    },
    Row {
        files: 3,
        bytes: 106,
        paths: BROKEN,
        told: "a/B.class:0: F1 class file is cut short\n",
        made: 0,
    },
];

fn told_of(rt: &impl Abort, alloc: Global, list: &[Diag]) -> SureSink {
    let mut sink = SureSink::of(alloc);
    print_diags(alloc, list, &mut sink).expect(rt, "memory");
    sink
}

fn check(
    rt: &impl Abort,
    alloc: Global,
    limits: Limits,
    held: Vec<HeldFile>,
    made: usize,
    told: &str,
) {
    let mut files = SureFiles::of(held);
    match strip_inputs(alloc, limits, &["a", "b"], "out", &mut files) {
        Ok(list) => assert!(rt; told.is_empty() && list.len() == made),
        Err(Stop::Diagnosed(list)) => {
            let sink = told_of(rt, alloc, &list);
            assert!(rt; sink.told() == told.as_bytes());
        }
        Err(Stop::Fault(_) | Stop::Memory) => panic!(rt; "neither files nor diagnostics"),
    }
}

#[test]
fn refuses_what_passes_a_limit(rt: HostRuntime) {
    for row in ROWS {
        let mut held = Vec::new(rt.alloc());
        for (path, name) in row.paths {
            let file = held_class(&rt, rt.alloc(), path, name);
            held.push(file).expect(&rt, "memory");
        }
        let limits = Limits {
            files: row.files,
            bytes: row.bytes,
        };
        check(&rt, rt.alloc(), limits, held, row.made, row.told);
    }
}

/// A file that is too long is told beside the one that passes the sum, adds nothing to the sum,
/// and is told alone behind that.
#[test]
fn tells_long_files_beside_the_sum(rt: HostRuntime) {
    let long = "a/L.class:0: L1 file is longer than 16777216 bytes\n";
    let rows = [
        (106, "b/C.class", long),
        (
            105,
            "b/C.class",
            "a/L.class:0: L1 file is longer than 16777216 bytes\n\
            b/C.class:0: L7 more than 1073741824 bytes in all\n",
        ),
        (
            105,
            "a/C.class",
            "a/C.class:0: L7 more than 1073741824 bytes in all\n",
        ),
    ];
    for (bytes, last, told) in rows {
        let mut file = held_class(&rt, rt.alloc(), "a/L.class", "L");
        file.bytes.resize(16_777_217, 0).expect(&rt, "memory");
        let mut held = Vec::new(rt.alloc());
        held.push(file).expect(&rt, "memory");
        let first = held_class(&rt, rt.alloc(), "a/A.class", "A");
        held.push(first).expect(&rt, "memory");
        let last = held_class(&rt, rt.alloc(), last, "C");
        held.push(last).expect(&rt, "memory");
        check(&rt, rt.alloc(), Limits { files: 3, bytes }, held, 0, told);
    }
}
