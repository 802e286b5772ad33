//! Objects in memory that fail at listed calls. Calls are counted from 0.
ghost use Rattle.std.specs.Prelude.{◌≡◌, ◌≤◌, ◌<◌, ◌^◌, ◌↔◌, [], Some, Err, min, take, length};
ghost use Rattle.std.specs.Prelude.{map, string_bytes, IfOk, IsErrOf, OnOk, OnErr};
ghost use Rattle.hdr_core.specs.Calls.{calls_made, failing_calls, FailsNext, CountsCall};
ghost use Rattle.hdr_core.specs.Causes.{CountsFault, grown};
ghost use Rattle.hdr_core.specs.Held.{ListsWhereTold, HoldsPath, HoldsBytes, HoldsWithin};
ghost use Rattle.hdr_core.specs.Held.{HoldsBeyond, with_file};
ghost use Rattle.hdr_core.specs.InMemory.{held_files, files_held, files_calls, files_faults};
ghost use Rattle.hdr_core.specs.InMemory.{outs_written, outs_calls, outs_faults};

use crate::calls::Calls;
use crate::errors::{CallErr, FileErr};
use crate::files::{Files, LONGEST_FILE};
use crate::held::{HeldFile, copy_held, list_held, push_file};
use crate::outs::Outs;
use crate::sink::Sink;
use std::alloc::Global;

/// Files in memory. Listings and readings are counted together.
///
/// A path that stands twice is held with the bytes of
/// its first file. Each reading goes over the files.
#[derive(Drop)]
pub struct MemFiles {
    calls: Calls,
    files: Vec<HeldFile>,
}

impl MemFiles {
    /// Takes no memory.
    pub fn of(files: Vec<HeldFile>, failing: Vec<u32>) -> MemFiles
        ensures held { ⟦<MemFiles as Files>⟧.held result ≡ Some (held_files files.items) }
        ensures faults { ⟦<MemFiles as Files>⟧.faults result ≡ 0 }
        ensures made { calls_made (files_calls result) ≡ 0 }
        ensures failing { failing_calls (files_calls result) ≡ failing.items }
    {
        MemFiles {
            calls: Calls::of(failing),
            files,
        }
    }

    /// The calls that were made so far.
    pub fn calls(&self) -> &Calls
        ensures { result.now ≡ files_calls self.now }
    {
        &self.calls
    }
}

impl Files for MemFiles {
    ghost held = { files_held };

    ghost faults = { files_faults };

    fn list(&mut self, alloc: Global, root: &str) -> Result<Vec<String>, CallErr>
        ensures fails { (result ≡ Err CallErr.Failed) ↔ FailsNext (files_calls self.old) }
        ensures counted { CountsCall (files_calls self.old) (files_calls self.new) }

        ensures paths { IfOk result (λ paths.
            ListsWhereTold (files_held self.old) root.now (map string_bytes paths.items)) }
        ensures held { files_held self.new ≡ files_held self.old }
        ensures faults { CountsFault files_faults self.old self.new result CallErr.Failed }
        ensures bounded { files_faults self.new < 2 ^ 64 }
    {
        if self.calls.fails_next() {
            return Err(CallErr::Failed);
        }
        Ok(list_held(alloc, &self.files, root)?)
    }

    fn read(&mut self, path: &str, into: &mut Vec<u8>) -> Result<(), FileErr>
        requires { HoldsPath (files_held self.old) path.now }
        ensures fails { (result ≡ Err FileErr.Failed) ↔ FailsNext (files_calls self.old) }
        ensures counted { CountsCall (files_calls self.old) (files_calls self.new) }

        ensures bytes { OnOk result (HoldsBytes (files_held self.old) path.now into.new.items) }
        ensures fits { OnOk result (length into.new.items ≤ LONGEST_FILE) }
        ensures too_long { IsErrOf result FileErr.TooLong →
            HoldsBeyond (files_held self.old) path.now LONGEST_FILE }
        ensures held { files_held self.new ≡ files_held self.old }
        ensures faults { CountsFault files_faults self.old self.new result FileErr.Failed }
        ensures bounded { files_faults self.new < 2 ^ 64 }
    {
        if self.calls.fails_next() {
            return Err(FileErr::Failed);
        }
        copy_held(&self.files, path, into)
    }
}

/// Takes written files into memory.
#[derive(Drop)]
pub struct MemOuts {
    calls: Calls,
    alloc: Global,
    written: Vec<HeldFile>,
}

impl MemOuts {
    /// Takes no memory.
    pub fn of(alloc: Global, failing: Vec<u32>) -> MemOuts
        ensures written { ⟦<MemOuts as Outs>⟧.written result ≡ Some [] }
        ensures faults { ⟦<MemOuts as Outs>⟧.faults result ≡ 0 }
        ensures made { calls_made (outs_calls result) ≡ 0 }
        ensures failing { failing_calls (outs_calls result) ≡ failing.items }
    {
        MemOuts {
            calls: Calls::of(failing),
            alloc,
            written: Vec::new(alloc),
        }
    }

    /// The calls that were made so far.
    pub fn calls(&self) -> &Calls
        ensures { result.now ≡ outs_calls self.now }
    {
        &self.calls
    }

    /// What was written, in the order of the calls.
    pub fn written(&self) -> &[HeldFile]
        ensures { ⟦<MemOuts as Outs>⟧.written self.now ≡ Some (held_files result.now) }
    {
        &self.written
    }
}

impl Outs for MemOuts {
    ghost written = { outs_written };

    ghost faults = { outs_faults };

    fn put(&mut self, path: &str, bytes: &[u8]) -> Result<(), CallErr>
        ensures fails { (result ≡ Err CallErr.Failed) ↔ FailsNext (outs_calls self.old) }
        ensures counted { CountsCall (outs_calls self.old) (outs_calls self.new) }

        ensures ok { OnOk result
            (outs_written self.new ≡ with_file (outs_written self.old) path.now bytes.now) }
        ensures err { OnErr result (outs_written self.new ≡ outs_written self.old) }
        ensures faults { CountsFault outs_faults self.old self.new result CallErr.Failed }
        ensures bounded { outs_faults self.new < 2 ^ 64 }
    {
        if self.calls.fails_next() {
            return Err(CallErr::Failed);
        }
        Ok(push_file(self.alloc, &mut self.written, path, bytes)?)
    }
}

/// A sink in memory. A write takes `step` bytes of a
/// piece, or the whole piece where that is shorter.
#[derive(Drop)]
pub struct MemSink {
    calls: Calls,
    told: Vec<u8>,
    step: u32,
    ghost takes_some: { 0 < step },
}

impl MemSink {
    ghost use Rattle.hdr_core.specs.InSink.{sink_step, sink_calls};

    /// Takes no memory.
    pub fn of(alloc: Global, step: u32, failing: Vec<u32>) -> MemSink
        requires { 0 < step }
        ensures told { ⟦<MemSink as Sink>⟧.told result ≡ Some [] }
        ensures faults { ⟦<MemSink as Sink>⟧.faults result ≡ 0 }
        ensures step { sink_step result ≡ step }
        ensures made { calls_made (sink_calls result) ≡ 0 }
        ensures failing { failing_calls (sink_calls result) ≡ failing.items }
    {
        MemSink {
            calls: Calls::of(failing),
            told: Vec::new(alloc),
            step,
        }
    }

    /// The calls that were made so far.
    pub fn calls(&self) -> &Calls
        ensures { result.now ≡ sink_calls self.now }
    {
        &self.calls
    }

    /// What it was told.
    pub fn told(&self) -> &[u8]
        ensures { ⟦<MemSink as Sink>⟧.told self.now ≡ Some result.now }
    {
        &self.told
    }
}

impl Sink for MemSink {
    ghost use Rattle.hdr_core.specs.InSink.{sink_told, sink_step, sink_calls, sink_faults};

    ghost told = { sink_told };

    ghost faults = { sink_faults };

    fn write(&mut self, piece: &[u8]) -> Result<usize, CallErr>
        ensures fails { (result ≡ Err CallErr.Failed) ↔ FailsNext (sink_calls self.old) }
        ensures counted { CountsCall (sink_calls self.old) (sink_calls self.new) }
        ensures step { sink_step self.new ≡ sink_step self.old }
        ensures taken { IfOk result (λ count. count ≡ min (length piece.now) (sink_step self.old)) }

        ensures some { IfOk result (λ count. 0 < length piece.now → 0 < count) }
        ensures bytes { IfOk result (λ count.
            sink_told self.new ≡ grown (sink_told self.old) (take count piece.now)) }
        ensures refused { OnErr result (sink_told self.new ≡ sink_told self.old) }
        ensures faults { CountsFault sink_faults self.old self.new result CallErr.Failed }
        ensures bounded { sink_faults self.new < 2 ^ 64 }
    {
        if self.calls.fails_next() {
            return Err(CallErr::Failed);
        }
        let count = piece.len().min(self.step as usize);
        self.told.extend_from_slice(&piece[..count])?;
        Ok(count)
    }
}
