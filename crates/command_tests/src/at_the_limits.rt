//! Runs at the limits of a job, over files that are made as they are read.
ghost use Rattle.std.specs.Prelude.{None};

use crate::running::words_of;
use commands::{Status, run};
use hdr_core::{CallErr, FileErr, Files, NoGate, SureOuts, SureSink};
use std::alloc::Global;
use std::process::Abort;
use std::thread::Threads;

/// Files of zeros, numbered from 0, of which none tells what it holds.
#[derive(Drop)]
struct ManyFiles {
    count: u32,
    /// How many bytes each has, but for the last.
    length: usize,
    last_length: usize,
    /// How many were read.
    read: u32,
}

impl Files for ManyFiles {
    ghost held = { λ _. None };

    ghost faults = { λ _. 0 };

    fn list(&mut self, alloc: Global, _root: &str) -> Result<Vec<String>, CallErr> {
        let mut paths = Vec::with_capacity(alloc, self.count as usize)?;
        for number in 0..self.count {
            let path = format!(in alloc; "in/{number:07}.class").map_err(|_| CallErr::Memory)?;
            paths.push(path)?;
        }
        Ok(paths)
    }

    fn read(&mut self, _path: &str, into: &mut Vec<u8>) -> Result<(), FileErr> {
        self.read = self.read.saturating_add(1);
        let length = if self.read < self.count {
            self.length
        } else {
            self.last_length
        };
        into.clear();
        into.resize(length, 0)?;
        Ok(())
    }
}

/// How many files there are, how many bytes each has but for the last, and how many that one; what
/// is told first, and how many files are read.
type Row = (u32, usize, usize, &'static str, u32);

const ROWS: &[Row] = &[
    (
        65,
        16_777_216,
        1,
        "in/0000064.class:0: L7 more than 1073741824 bytes in all\n",
        65,
    ),
    (
        66,
        16_777_216,
        1,
        "in/0000064.class:0: L7 more than 1073741824 bytes in all\n",
        65,
    ),
    (
        65,
        16_777_216,
        0,
        "in/0000000.class:0: F2 not a class file\n",
        65,
    ),
    (
        1_048_577,
        0,
        0,
        "in/0000000.class:0: L8 more than 1048576 files\n",
        0,
    ),
];

fn check_row<R: Abort + Threads + Sync>(rt: &R, alloc: Global, row: &Row) {
    let &(count, length, last_length, told, read) = row;
    let mut files = ManyFiles {
        count,
        length,
        last_length,
        read: 0,
    };
    let words = words_of(rt, alloc, &["ijar", "--input", "in", "--output", "out"]);
    let mut outs = SureOuts::of(alloc);
    let mut out = SureSink::of(alloc);
    let mut err = SureSink::of(alloc);
    let status = run(
        rt, alloc, &words, &mut files, &mut outs, &mut out, &mut err, &NoGate,
    );
    assert!(rt; status == Status::Diagnosed);
    assert!(rt; files.read == read);
    assert!(rt; err.told().starts_with(told.as_bytes()));
}

#[test]
fn tells_what_passes_a_limit(rt: HostRuntime) {
    for row in ROWS {
        check_row(&rt, rt.alloc(), row);
    }
}
