//! What is told on the way out.
ghost use Rattle.std.specs.Prelude.{◌≡◌, ◌++◌, IfOk};
ghost use Rattle.hdr_core.specs.Diagnostics.{printed};
ghost use Rattle.command_line.specs.Seen.{refusal_seen};
ghost use Rattle.command_line.specs.Words.{archive_line, refusal_line};
ghost use Rattle.run_ends.specs.Outside.{sink_state};
ghost use Rattle.run_ends.specs.Tells.{LineTold, TextTold, StopTold, fault_line};

use crate::status::Status;
use command_line::Refusal;
use hdr_core::{CallErr, Diag, Memory, Sink, print_diags, write_whole};
use std::alloc::Global;
use used_files::Stop;

/// The three parts, one behind the other.
fn joined(alloc: Global, front: &[u8], middle: &[u8], end: &[u8]) -> Result<Vec<u8>, Memory>
    ensures { IfOk result (λ text. text.items ≡ front.now ++ (middle.now ++ end.now)) }
{
    let mut text = Vec::from_slice(alloc, front)?;
    text.extend_from_slice(middle)?;
    text.extend_from_slice(end)?;
    Ok(text)
}

/// Tells a line under its status. A fault of the sink is passed over: nothing more is told then.
#[tactic(auto, using(crate::proofs::Told::told_whole))]
fn tell_line<S: Sink>(line: &[u8], own: Status, err: &mut S) -> Status
    ensures { LineTold own line.now result
        (sink_state S.Sink err.old) (sink_state S.Sink err.new) }
{
    match write_whole(line, err) {
        Ok(()) | Err(CallErr::Failed) => own,
        Err(CallErr::Memory) => Status::Memory,
    }
}

/// Tells that a call on the files failed at this root or path.
fn tell_fault<S: Sink>(alloc: Global, path: &str, err: &mut S) -> Status
    ensures { LineTold Status.ReadFault (fault_line path.now) result
        (sink_state S.Sink err.old) (sink_state S.Sink err.new) }
{
    let Ok(line) = joined(alloc, b"read fault: ", path.as_bytes(), b"\n") else {
        return Status::Memory;
    };
    tell_line(&line, Status::ReadFault, err)
}

/// Tells that a word names an archive.
fn tell_archive<S: Sink>(alloc: Global, word: &str, err: &mut S) -> Status
    ensures { LineTold Status.Usage (archive_line word.now) result
        (sink_state S.Sink err.old) (sink_state S.Sink err.new) }
{
    let Ok(line) = joined(alloc, b"archives are not read: ", word.as_bytes(), b"\n") else {
        return Status::Memory;
    };
    tell_line(&line, Status::Usage, err)
}

/// Tells why words are no job.
pub fn tell_refusal<S: Sink>(alloc: Global, refusal: Refusal<'_>, err: &mut S) -> Status
    ensures { LineTold Status.Usage (refusal_line (refusal_seen refusal.entry)) result
        (sink_state S.Sink err.old) (sink_state S.Sink err.new) }
{
    match refusal {
        Refusal::Archive(word) => tell_archive(alloc, word, err),
        Refusal::Help => tell_line(
            b"usage: jheader turbine|ijar|ask options\n",
            Status::Usage,
            err,
        ),
    }
}

/// Tells the diagnostics of the input.
fn tell_diags<S: Sink>(alloc: Global, list: &[Diag], err: &mut S) -> Status
    ensures { TextTold Status.Diagnosed (printed list.now) result
        (sink_state S.Sink err.old) (sink_state S.Sink err.new) }
{
    match print_diags(alloc, list, err) {
        Ok(()) => Status::Diagnosed,
        Err(CallErr::Failed) => Status::WriteFault,
        Err(CallErr::Memory) => Status::Memory,
    }
}

/// Tells why a job ends before anything is written.
pub fn tell_stop<S: Sink>(alloc: Global, stop: Stop, err: &mut S) -> Status
    ensures { StopTold stop result (sink_state S.Sink err.old) (sink_state S.Sink err.new) }
{
    match stop {
        Stop::Fault(path) => tell_fault(alloc, path.as_str(), err),
        Stop::Diagnosed(list) => tell_diags(alloc, &list, err),
        Stop::Memory => Status::Memory,
    }
}
