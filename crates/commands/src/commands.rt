//! The top call.
ghost use Rattle.std.specs.Prelude.{◌≡◌, map, string_bytes, IfOk, IfErr, IfSome};
ghost use Rattle.command_line.specs.Words.{job};
ghost use Rattle.command_line.specs.Seen.{command_seen};
ghost use Rattle.commands.specs.Outcome.{outcome_of, diagnosed};
ghost use Rattle.commands.specs.Made.{outcome_made, Makes};
ghost use Rattle.commands.specs.Found.{ReadsValid};
ghost use Rattle.run_ends.specs.Outside.{outside, CanRise, FailsAtMostOnce};
ghost use Rattle.commands.specs.Runs.{Runs};
ghost use Rattle.used_files.specs.Stops.{StopsOnly, FaultRises};
ghost use Rattle.commands.specs.JobPaths.{IsPathOf};

use crate::ask::answer_questions;
use crate::ijar::strip_inputs;
use crate::made::{Made, hand_over};
use command_line::{Command, Job, job_of};
use file_contents::LIMITS;
use hdr_core::{Files, Gate, Outs, Sink};
use run_ends::{Status, tell_refusal, tell_stop};
use std::alloc::Global;
use std::thread::Threads;
use used_files::Stop;

/// Makes what a command writes or tells: that of its outcome, or else it says why there is none.
fn make<F: Files>(alloc: Global, command: Command<'_>, files: &mut F) -> Result<Made, Stop>
    ensures made { IfOk result (λ made. IfSome (F.held files.old) (λ held.
        outcome_of (command_seen command.entry) held ≡ outcome_made made)) }
    ensures fits { IfOk result (Makes (command_seen command.entry)) }
    ensures valid { IfOk result (λ _. IfSome (F.held files.old)
        (ReadsValid (command_seen command.entry))) }
    ensures stops { IfErr result (λ stop. StopsOnly stop
        (λ path. IfSome (F.held files.old)
        (λ held. IsPathOf held (command_seen command.entry) path))
        (λ list. IfSome (F.held files.old) (λ held.
        outcome_of (command_seen command.entry) held ≡ diagnosed list))) }
    ensures faults { FaultRises result (F.faults files.old) (F.faults files.new) }
    ensures held { F.held files.new ≡ F.held files.old }
{
    match command {
        Command::Ijar { inputs, output } => {
            match strip_inputs(alloc, LIMITS, &inputs, output, files) {
                Ok(list) => Ok(Made::Files(list)),
                Err(stop) => Err(stop),
            }
        }
        Command::Ask(asked) => match answer_questions(alloc, LIMITS, asked, files) {
            Ok(lines) => Ok(Made::Lines(lines)),
            Err(stop) => Err(stop),
        },
    }
}

/// Does the job of the words, which stand behind the program's name.
///
/// `Runs`, in `specs/Runs.antt`, says of each answer when it comes, what was written and told, and
/// that clients find in what was written what they find in what was read. What is said of contents
/// holds where the objects tell them.
pub fn run<R: Threads + Sync, F: Files, O: Outs, S: Sink, G: Gate>(
    rt: &R,
    alloc: Global,
    words: &[String],
    files: &mut F,
    outs: &mut O,
    out: &mut S,
    err: &mut S,
    gate: &G,
) -> Status
    requires { CanRise (outside F.Files O.Outs S.Sink files.old outs.old out.old err.old) }
    ensures runs { let before = outside F.Files O.Outs S.Sink files.old outs.old out.old err.old in
        let after = outside F.Files O.Outs S.Sink files.new outs.new out.new err.new in
        Runs (job (map string_bytes words.now)) result before after }
    // No object is called behind a call on it that failed.
    ensures once { FailsAtMostOnce (outside F.Files O.Outs S.Sink files.old outs.old out.old err.old)
        (outside F.Files O.Outs S.Sink files.new outs.new out.new err.new) }
    // Reading leaves the files as they are.
    ensures held { F.held files.new ≡ F.held files.old }
{
    let Ok(job) = job_of(alloc, words) else {
        return Status::Memory;
    };
    match job {
        Job::Refused(refusal) => tell_refusal(alloc, refusal, err),
        Job::Doing(command) => match make(alloc, command, files) {
            Ok(made) => hand_over(made, outs, out),
            Err(stop) => tell_stop(alloc, stop, err),
        },
    }
}
