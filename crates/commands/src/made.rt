//! What a job makes.
ghost use Rattle.run_ends.specs.Outside.{outs_state, sink_state};
ghost use Rattle.commands.specs.Made.{HandedOver};

use hdr_core::{Outs, Sink, Text};
use run_ends::{OutFile, Status, put_files, tell_lines};

/// What a job makes.
#[derive(Drop)]
pub enum Made {
    /// Files that are written.
    Files(Vec<OutFile>),
    /// Lines that are told on standard output.
    Lines(Vec<Text>),
}

/// Writes the files, or tells the lines.
pub fn hand_over<O: Outs, S: Sink>(made: Made, outs: &mut O, out: &mut S) -> Status
    ensures { HandedOver made result (outs_state O.Outs outs.old) (outs_state O.Outs outs.new)
        (sink_state S.Sink out.old) (sink_state S.Sink out.new) }
{
    match made {
        Made::Files(files) => put_files(&files, outs),
        Made::Lines(lines) => tell_lines(&lines, out),
    }
}
