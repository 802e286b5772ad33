//! Questions over objects of which listed calls fail.
use crate::building::{held_class, words};
use commands::{Status, run};
use hdr_core::{HeldFile, MemFiles, MemOuts, MemSink, NoGate};
use std::alloc::Global;
use std::process::Abort;
use std::thread::Threads;

/// Which calls fail, and what comes of it.
struct Fault {
    files: &'static [u32],
    out: &'static [u32],
    err: &'static [u32],
    /// Whether a write takes a line in parts of seven bytes, not at once.
    in_parts: bool,
    status: Status,
    lines: &'static str,
    told: &'static str,
    /// How many calls are made on the files, and how many writes on standard output.
    calls: (u32, u32),
}

/// Two roots and four questions.
const JOB: &str = "ask --classes a --classes b --type A --type Q --type B --supers C";

const THREE: &[(&str, &str)] = &[("a/A.class", "A"), ("a/B.class", "C"), ("b/C.class", "B")];

const BROKEN: &[(&str, &str)] = &[("a/A.class", "A"), ("a/B.class", ""), ("b/C.class", "A")];

const FIRST: &str = "type A found 0021\n";

const TWO: &str = "type A found 0021\ntype Q not-found\n";

const FIRST_THREE: &str = "type A found 0021\ntype Q not-found\ntype B found 0021\n";

const ALL: &str = "type A found 0021\ntype Q not-found\ntype B found 0021\n\
    supers C found java/lang/Object\n";

/// Listing before reading before answering: each call in its turn.
const FAULTS: &[Fault] = &[
    Fault {
        files: &[5],
        out: &[4],
        err: &[0],
        in_parts: false,
        status: Status::Done,
        lines: ALL,
        told: "",
        calls: (5, 4),
    },
    Fault {
        files: &[0],
        out: &[0],
        err: &[],
        in_parts: false,
        status: Status::ReadFault,
        lines: "",
        told: "read fault: a\n",
        calls: (1, 0),
    },
    Fault {
        files: &[1],
        out: &[0],
        err: &[],
        in_parts: false,
        status: Status::ReadFault,
        lines: "",
        told: "read fault: b\n",
        calls: (2, 0),
    },
    Fault {
        files: &[2],
        out: &[0],
        err: &[],
        in_parts: false,
        status: Status::ReadFault,
        lines: "",
        told: "read fault: a/A.class\n",
        calls: (3, 0),
    },
    Fault {
        files: &[3],
        out: &[0],
        err: &[0],
        in_parts: false,
        status: Status::ReadFault,
        lines: "",
        told: "",
        calls: (4, 0),
    },
    Fault {
        files: &[4],
        out: &[0],
        err: &[],
        in_parts: false,
        status: Status::ReadFault,
        lines: "",
        told: "read fault: b/C.class\n",
        calls: (5, 0),
    },
    // Each line is one write, and after one that failed there is none.
    Fault {
        files: &[],
        out: &[0],
        err: &[0],
        in_parts: false,
        status: Status::WriteFault,
        lines: "",
        told: "",
        calls: (5, 1),
    },
    Fault {
        files: &[],
        out: &[1],
        err: &[0],
        in_parts: false,
        status: Status::WriteFault,
        lines: FIRST,
        told: "",
        calls: (5, 2),
    },
    Fault {
        files: &[],
        out: &[2],
        err: &[0],
        in_parts: false,
        status: Status::WriteFault,
        lines: TWO,
        told: "",
        calls: (5, 3),
    },
    Fault {
        files: &[],
        out: &[3],
        err: &[0],
        in_parts: false,
        status: Status::WriteFault,
        lines: FIRST_THREE,
        told: "",
        calls: (5, 4),
    },
    // Within a line, where a write takes a part of it.
    Fault {
        files: &[],
        out: &[4],
        err: &[0],
        in_parts: true,
        status: Status::WriteFault,
        lines: "type A found 0021\ntype Q ",
        told: "",
        calls: (5, 5),
    },
    Fault {
        files: &[],
        out: &[14],
        err: &[0],
        in_parts: true,
        status: Status::Done,
        lines: ALL,
        told: "",
        calls: (5, 14),
    },
];

/// Diagnostics are told on standard error alone, also where that fails.
const DIAGNOSED: &[Fault] = &[
    Fault {
        files: &[],
        out: &[0],
        err: &[],
        in_parts: false,
        status: Status::Diagnosed,
        lines: "",
        told: "a/B.class:0: F1 class file is cut short\n",
        calls: (5, 0),
    },
    Fault {
        files: &[],
        out: &[0],
        err: &[1],
        in_parts: true,
        status: Status::WriteFault,
        lines: "",
        told: "a/B.cla",
        calls: (5, 0),
    },
];

fn calls(rt: &impl Abort, alloc: Global, numbers: &[u32]) -> Vec<u32> {
    Vec::from_slice(alloc, numbers).expect(rt, "memory")
}

fn held(rt: &impl Abort, alloc: Global, classes: &[(&str, &str)]) -> Vec<HeldFile> {
    let mut files = Vec::new(alloc);
    for (path, name) in classes {
        files
            .push(held_class(rt, alloc, path, name))
            .expect(rt, "memory");
    }
    files
}

fn check_faults<R: Abort + Threads + Sync>(
    rt: &R,
    alloc: Global,
    classes: &[(&str, &str)],
    faults: &[Fault],
) {
    for fault in faults {
        check_fault(rt, alloc, classes, fault);
    }
}

fn check_fault<R: Abort + Threads + Sync>(
    rt: &R,
    alloc: Global,
    classes: &[(&str, &str)],
    fault: &Fault,
) {
    let words = words(rt, alloc, JOB);
    let step = if fault.in_parts { 7 } else { 64 };
    let mut files = MemFiles::of(held(rt, alloc, classes), calls(rt, alloc, fault.files));
    let mut outs = MemOuts::of(alloc, calls(rt, alloc, &[0]));
    let mut out = MemSink::of(alloc, step, calls(rt, alloc, fault.out));
    let mut err = MemSink::of(alloc, step, calls(rt, alloc, fault.err));
    let status = run(
        rt, alloc, &words, &mut files, &mut outs, &mut out, &mut err, &NoGate,
    );
    assert!(rt; status == fault.status);
    assert!(rt; out.told() == fault.lines.as_bytes());
    assert!(rt; err.told() == fault.told.as_bytes());
    assert!(rt; (files.calls().made(), out.calls().made()) == fault.calls);
    assert!(rt; outs.calls().made() == 0);
}

#[test]
fn answers_faults_of_questions(rt: HostRuntime) {
    check_faults(&rt, rt.alloc(), THREE, FAULTS);
}

#[test]
fn tells_diagnostics_on_standard_error_alone(rt: HostRuntime) {
    check_faults(&rt, rt.alloc(), BROKEN, DIAGNOSED);
}
