//! Lines that are told on the way out.
ghost use Rattle.std.specs.Prelude.{◌≡◌, ◌≢◌, Err, OnOk, OnErr, IsErrOf};
ghost use Rattle.hdr_core.specs.Causes.{Rose, grown, GrewByFront};
ghost use Rattle.run_ends.specs.Outside.{sink_state};
ghost use Rattle.run_ends.specs.Tells.{TextTold, all_lines};

use crate::status::Status;
use hdr_core::{CallErr, Sink, Text, write_whole};

/// Tells lines in their order, each at once. After a refusal no more is told.
fn tell_each<S: Sink>(lines: &[Text], out: &mut S) -> Result<(), CallErr>
    ensures ok { OnOk result (S.told out.new ≡ grown (S.told out.old) (all_lines lines.now)) }
    ensures err { OnErr result
        (GrewByFront (S.told out.old) (S.told out.new) (all_lines lines.now)) }
    ensures failed { IsErrOf result CallErr.Failed → Rose (S.faults out.old) (S.faults out.new) }
    ensures kept { result ≢ Err CallErr.Failed → S.faults out.new ≡ S.faults out.old }
{
    for line in lines {
        write_whole(line.bytes(), out)?;
    }
    Ok(())
}

/// Tells the lines of a job.
pub fn tell_lines<S: Sink>(lines: &[Text], out: &mut S) -> Status
    ensures { TextTold Status.Done (all_lines lines.now) result
        (sink_state S.Sink out.old) (sink_state S.Sink out.new) }
{
    match tell_each(lines, out) {
        Ok(()) => Status::Done,
        Err(CallErr::Failed) => Status::WriteFault,
        Err(CallErr::Memory) => Status::Memory,
    }
}
