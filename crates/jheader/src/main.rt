//! The program: it hands its words and the objects of the system to the commands.
#![tactic(auto)]

mod stream;

use commands::{Status, run};
use hdr_core::{DirFiles, DirOuts, NoGate, StdSink};
use std::io::ErrorKind;
use std::process::ExitCode;
use std::{env, io};
use stream::StandardStream;

/// The words behind the program's name. Words that aren't UTF-8 are no job, so none are handed on
/// then.
fn words(rt: &HostRuntime) -> io::Result<Vec<String>> {
    let mut words = Vec::new(rt.alloc());
    let given = match env::args(rt) {
        Ok(given) => given,
        Err(error) if error.kind() == ErrorKind::InvalidData => return Ok(words),
        Err(error) => return Err(error),
    };
    for word in given.skip(1) {
        words.push(word)?;
    }
    Ok(words)
}

/// The words, and two handles of the system.
type Start = (Vec<String>, HostRuntime, HostRuntime);

/// An error is want of memory.
fn start(rt: &HostRuntime) -> io::Result<Start> {
    Ok((words(rt)?, rt.clone()?, rt.clone()?))
}

fn main(rt: HostRuntime) -> ExitCode {
    let Ok((words, reading, writing)) = start(&rt) else {
        return ExitCode::from(Status::Memory.number());
    };
    let mut files = DirFiles::of(reading);
    let mut outs = DirOuts::of(writing);
    let mut out = StdSink::of(StandardStream::Output(rt.stdout()));
    let mut err = StdSink::of(StandardStream::Error(rt.stderr()));
    let status = run(
        &rt,
        rt.alloc(),
        &words,
        &mut files,
        &mut outs,
        &mut out,
        &mut err,
        &NoGate,
    );
    ExitCode::from(status.number())
}
