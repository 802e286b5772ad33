//! Runs over objects that never fail.
ghost use Rattle.std.specs.Prelude.{◌≢◌};

use commands::{Status, run};
use hdr_core::{HeldFile, NoGate, SureFiles, SureOuts, SureSink};
use std::alloc::Global;
use std::process::Abort;
use std::thread::Threads;

/// What came of a run over objects that never fail.
#[derive(Drop)]
pub struct Ran {
    pub status: Status,
    pub outs: SureOuts,
    pub out: SureSink,
    pub err: SureSink,
}

/// A run over objects that never fail answers no fault.
pub fn run_sure<R: Threads + Sync>(
    rt: &R,
    alloc: Global,
    words: &[String],
    files: Vec<HeldFile>,
) -> Ran
    ensures { (result.status ≢ Status.ReadFault) × (result.status ≢ Status.WriteFault) }
{
    let mut files = SureFiles::of(files);
    let mut outs = SureOuts::of(alloc);
    let mut out = SureSink::of(alloc);
    let mut err = SureSink::of(alloc);
    let status = run(
        rt, alloc, words, &mut files, &mut outs, &mut out, &mut err, &NoGate,
    );
    Ran {
        status,
        outs,
        out,
        err,
    }
}

pub fn words_of(rt: &impl Abort, alloc: Global, row: &[&str]) -> Vec<String> {
    let mut words = Vec::new(alloc);
    for word in row {
        let word = String::from_str(alloc, word).expect(rt, "memory");
        words.push(word).expect(rt, "memory");
    }
    words
}
