//! What is written on the way out.
ghost use Rattle.std.specs.Prelude.{◌≡◌, ◌≢◌, map, Err, OnOk, OnErr, IsErrOf};
ghost use Rattle.hdr_core.specs.Causes.{Rose};
ghost use Rattle.run_ends.specs.Outside.{outs_state};
ghost use Rattle.run_ends.specs.OutFiles.{file_seen};
ghost use Rattle.run_ends.specs.Tells.{FilesPut, GrewByFiles, with_files};

use crate::out_file::OutFile;
use crate::status::Status;
use hdr_core::{CallErr, Outs};

/// Writes files in their order. After a refusal no more is written.
fn put_each<O: Outs>(files: &[OutFile], outs: &mut O) -> Result<(), CallErr>
    ensures ok { OnOk result
        (O.written outs.new ≡ with_files (O.written outs.old) (map file_seen files.now)) }
    ensures err { OnErr result
        (GrewByFiles (O.written outs.old) (O.written outs.new) (map file_seen files.now)) }

    ensures failed { IsErrOf result CallErr.Failed → Rose (O.faults outs.old) (O.faults outs.new) }
    ensures kept { result ≢ Err CallErr.Failed → O.faults outs.new ≡ O.faults outs.old }
{
    for file in files {
        outs.put(file.path.as_str(), file.bytes.bytes())?;
    }
    Ok(())
}

/// Writes the files of a job.
pub fn put_files<O: Outs>(files: &[OutFile], outs: &mut O) -> Status
    ensures { FilesPut (map file_seen files.now) result
        (outs_state O.Outs outs.old) (outs_state O.Outs outs.new) }
{
    match put_each(files, outs) {
        Ok(()) => Status::Done,
        Err(CallErr::Failed) => Status::WriteFault,
        Err(CallErr::Memory) => Status::Memory,
    }
}
