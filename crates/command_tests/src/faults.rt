//! Objects of which listed calls fail.
use crate::building::held_class;
use crate::running::words_of;
use commands::{Status, run};
use hdr_core::{HeldFile, MemFiles, MemOuts, MemSink, NoGate};
use std::alloc::Global;
use std::process::Abort;
use std::thread::Threads;

/// A run over objects of which listed calls fail, and what comes of it.
struct Fault {
    words: &'static [&'static str],
    classes: &'static [(&'static str, &'static str)],
    files: &'static [u32],
    outs: &'static [u32],
    err: &'static [u32],
    status: Status,
    told: &'static str,
    /// How many calls are made on the files, and how many files are put.
    calls: (u32, u32),
    written: usize,
}

const JOB: &[&str] = &["ijar", "--input", "in", "--output", "out"];

const TWO: &[&str] = &["ijar", "--input", "a", "--input", "b", "--output", "out"];

const ONE: &[(&str, &str)] = &[("in/A.class", "A")];

const EMPTY: &[(&str, &str)] = &[("in/A.class", "")];

const THREE: &[(&str, &str)] = &[("a/A.class", "A"), ("a/B.class", "C"), ("b/C.class", "B")];

const FAULTS: &[Fault] = &[
    // No call of a job that is done.
    Fault {
        words: JOB,
        classes: ONE,
        files: &[2],
        outs: &[1],
        err: &[0],
        status: Status::Done,
        told: "",
        calls: (2, 1),
        written: 1,
    },
    // Telling of a fault, which fails.
    Fault {
        words: JOB,
        classes: ONE,
        files: &[1],
        outs: &[],
        err: &[1],
        status: Status::ReadFault,
        told: "read fa",
        calls: (2, 0),
        written: 0,
    },
    // Telling a diagnostic, before its line and within it.
    Fault {
        words: JOB,
        classes: EMPTY,
        files: &[],
        outs: &[0],
        err: &[0],
        status: Status::WriteFault,
        told: "",
        calls: (2, 0),
        written: 0,
    },
    Fault {
        words: JOB,
        classes: EMPTY,
        files: &[],
        outs: &[0],
        err: &[1],
        status: Status::WriteFault,
        told: "in/A.cl",
        calls: (2, 0),
        written: 0,
    },
    // Two roots and three files: each call, listing before reading before putting.
    Fault {
        words: TWO,
        classes: THREE,
        files: &[5],
        outs: &[3],
        err: &[0],
        status: Status::Done,
        told: "",
        calls: (5, 3),
        written: 3,
    },
    Fault {
        words: TWO,
        classes: THREE,
        files: &[0],
        outs: &[],
        err: &[],
        status: Status::ReadFault,
        told: "read fault: a\n",
        calls: (1, 0),
        written: 0,
    },
    Fault {
        words: TWO,
        classes: THREE,
        files: &[1],
        outs: &[],
        err: &[],
        status: Status::ReadFault,
        told: "read fault: b\n",
        calls: (2, 0),
        written: 0,
    },
    Fault {
        words: TWO,
        classes: THREE,
        files: &[2],
        outs: &[],
        err: &[],
        status: Status::ReadFault,
        told: "read fault: a/A.class\n",
        calls: (3, 0),
        written: 0,
    },
    Fault {
        words: TWO,
        classes: THREE,
        files: &[3],
        outs: &[],
        err: &[],
        status: Status::ReadFault,
        told: "read fault: a/B.class\n",
        calls: (4, 0),
        written: 0,
    },
    Fault {
        words: TWO,
        classes: THREE,
        files: &[4],
        outs: &[],
        err: &[],
        status: Status::ReadFault,
        told: "read fault: b/C.class\n",
        calls: (5, 0),
        written: 0,
    },
    Fault {
        words: TWO,
        classes: THREE,
        files: &[],
        outs: &[0],
        err: &[],
        status: Status::WriteFault,
        told: "",
        calls: (5, 1),
        written: 0,
    },
    Fault {
        words: TWO,
        classes: THREE,
        files: &[],
        outs: &[1],
        err: &[],
        status: Status::WriteFault,
        told: "",
        calls: (5, 2),
        written: 1,
    },
    Fault {
        words: TWO,
        classes: THREE,
        files: &[],
        outs: &[2],
        err: &[],
        status: Status::WriteFault,
        told: "",
        calls: (5, 3),
        written: 2,
    },
    // Where the words are no job, nothing else is called.
    Fault {
        words: &["ijar"],
        classes: ONE,
        files: &[0],
        outs: &[0],
        err: &[],
        status: Status::Usage,
        told: "usage: jheader turbine|ijar|ask options\n",
        calls: (0, 0),
        written: 0,
    },
    Fault {
        words: &["ijar", "--input", "in.zip"],
        classes: ONE,
        files: &[0],
        outs: &[0],
        err: &[2],
        status: Status::Usage,
        told: "archives are n",
        calls: (0, 0),
        written: 0,
    },
];

fn calls(rt: &impl Abort, alloc: Global, numbers: &[u32]) -> Vec<u32> {
    Vec::from_slice(alloc, numbers).expect(rt, "memory")
}

fn held(rt: &impl Abort, alloc: Global, classes: &[(&str, &str)]) -> Vec<HeldFile> {
    let mut files = Vec::new(alloc);
    for (path, name) in classes {
        let file = held_class(rt, alloc, path, name);
        files.push(file).expect(rt, "memory");
    }
    files
}

fn check_fault<R: Abort + Threads + Sync>(rt: &R, alloc: Global, fault: &Fault) {
    let words = words_of(rt, alloc, fault.words);
    let held = held(rt, alloc, fault.classes);
    let mut files = MemFiles::of(held, calls(rt, alloc, fault.files));
    let mut outs = MemOuts::of(alloc, calls(rt, alloc, fault.outs));
    let mut out = MemSink::of(alloc, 7, calls(rt, alloc, &[0]));
    let mut err = MemSink::of(alloc, 7, calls(rt, alloc, fault.err));
    let status = run(
        rt, alloc, &words, &mut files, &mut outs, &mut out, &mut err, &NoGate,
    );
    assert!(rt; status == fault.status);
    assert!(rt; err.told() == fault.told.as_bytes());
    assert!(rt; (files.calls().made(), outs.calls().made()) == fault.calls);
    assert!(rt; out.calls().made() == 0);
    assert!(rt; outs.written().len() == fault.written);
}

#[test]
fn answers_faults(rt: HostRuntime) {
    for fault in FAULTS {
        check_fault(&rt, rt.alloc(), fault);
    }
}
