//! Objects in memory that never fail.
ghost use Rattle.std.specs.Prelude.{◌≡◌, ◌≢◌, ◌≤◌, [], Some, Err, length, map, string_bytes};
ghost use Rattle.std.specs.Prelude.{IfOk, IsErrOf, OnOk, OnErr};
ghost use Rattle.hdr_core.specs.Causes.{grown};
ghost use Rattle.hdr_core.specs.Held.{ListsWhereTold, HoldsPath, HoldsBytes, HoldsWithin};
ghost use Rattle.hdr_core.specs.Held.{HoldsBeyond, with_file};
ghost use Rattle.hdr_core.specs.InMemory.{held_files, sure_held, sure_written, sure_told};

use crate::errors::{CallErr, FileErr};
use crate::files::{Files, LONGEST_FILE};
use crate::held::{HeldFile, copy_held, list_held, push_file};
use crate::outs::Outs;
use crate::sink::Sink;
use std::alloc::Global;

/// Files in memory that never fail.
///
/// A path that stands twice is held with the bytes of
/// its first file. Each reading goes over the files.
#[derive(Drop)]
pub struct SureFiles {
    files: Vec<HeldFile>,
}

impl SureFiles {
    /// Takes no memory.
    pub fn of(files: Vec<HeldFile>) -> SureFiles
        ensures held { ⟦<SureFiles as Files>⟧.held result ≡ Some (held_files files.items) }
        ensures sure { ⟦<SureFiles as Files>⟧.faults result ≡ 0 }
    {
        SureFiles { files }
    }
}

impl Files for SureFiles {
    ghost held = { sure_held };

    ghost faults = { λ _. 0 };

    fn list(&mut self, alloc: Global, root: &str) -> Result<Vec<String>, CallErr>
        ensures paths { IfOk result (λ paths.
            ListsWhereTold (sure_held self.old) root.now (map string_bytes paths.items)) }
        ensures held { sure_held self.new ≡ sure_held self.old }
        ensures sure { result ≢ Err CallErr.Failed }
    {
        Ok(list_held(alloc, &self.files, root)?)
    }

    fn read(&mut self, path: &str, into: &mut Vec<u8>) -> Result<(), FileErr>
        requires { HoldsPath (sure_held self.old) path.now }
        ensures bytes { OnOk result (HoldsBytes (sure_held self.old) path.now into.new.items) }
        ensures fits { OnOk result (length into.new.items ≤ LONGEST_FILE) }
        ensures too_long { IsErrOf result FileErr.TooLong →
            HoldsBeyond (sure_held self.old) path.now LONGEST_FILE }
        ensures held { sure_held self.new ≡ sure_held self.old }
        ensures sure { result ≢ Err FileErr.Failed }
    {
        copy_held(&self.files, path, into)
    }
}

/// Takes written files into memory, and never fails.
#[derive(Drop)]
pub struct SureOuts {
    alloc: Global,
    written: Vec<HeldFile>,
}

impl SureOuts {
    /// Takes no memory.
    pub fn of(alloc: Global) -> SureOuts
        ensures written { ⟦<SureOuts as Outs>⟧.written result ≡ Some [] }
        ensures sure { ⟦<SureOuts as Outs>⟧.faults result ≡ 0 }
    {
        SureOuts {
            alloc,
            written: Vec::new(alloc),
        }
    }

    /// What was written, in the order of the calls.
    pub fn written(&self) -> &[HeldFile]
        ensures { ⟦<SureOuts as Outs>⟧.written self.now ≡ Some (held_files result.now) }
    {
        &self.written
    }
}

impl Outs for SureOuts {
    ghost written = { sure_written };

    ghost faults = { λ _. 0 };

    fn put(&mut self, path: &str, bytes: &[u8]) -> Result<(), CallErr>
        ensures ok { OnOk result
            (sure_written self.new ≡ with_file (sure_written self.old) path.now bytes.now) }
        ensures err { OnErr result (sure_written self.new ≡ sure_written self.old) }
        ensures sure { result ≢ Err CallErr.Failed }
    {
        Ok(push_file(self.alloc, &mut self.written, path, bytes)?)
    }
}

/// A sink in memory that takes each piece whole, and never fails.
#[derive(Drop)]
pub struct SureSink {
    told: Vec<u8>,
}

impl SureSink {
    /// Takes no memory.
    pub fn of(alloc: Global) -> SureSink
        ensures told { ⟦<SureSink as Sink>⟧.told result ≡ Some [] }
        ensures sure { ⟦<SureSink as Sink>⟧.faults result ≡ 0 }
    {
        SureSink {
            told: Vec::new(alloc),
        }
    }

    /// What it was told.
    pub fn told(&self) -> &[u8]
        ensures { ⟦<SureSink as Sink>⟧.told self.now ≡ Some result.now }
    {
        &self.told
    }
}

impl Sink for SureSink {
    ghost told = { sure_told };

    ghost faults = { λ _. 0 };

    fn write(&mut self, piece: &[u8]) -> Result<usize, CallErr>
        ensures whole { IfOk result (λ count. count ≡ length piece.now) }
        ensures ok { OnOk result (sure_told self.new ≡ grown (sure_told self.old) piece.now) }
        ensures refused { OnErr result (sure_told self.new ≡ sure_told self.old) }
        ensures sure { result ≢ Err CallErr.Failed }
    {
        self.told.extend_from_slice(piece)?;
        Ok(piece.len())
    }
}
