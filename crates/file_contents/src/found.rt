//! Files that are read one by one.
ghost use Rattle.std.specs.Prelude.{◌≡◌, ◌≢◌, ◌≤◌, ◌<◌, ◌+◌, ◌^◌, ◌++◌, [], ◌∷◌, true, false, Err};
ghost use Rattle.std.specs.Prelude.{length, map, IfOk, OnOk, IfErr, IfSome, IsErrOf, Contains};
ghost use Rattle.hdr_core.specs.Causes.{CountsFault};
ghost use Rattle.hdr_core.specs.Held.{HoldsPath, HoldsBytes, HoldsBeyond};
ghost use Rattle.hdr_core.specs.declared.files.TheConstants.{LONGEST_FILE};
ghost use Rattle.file_contents.specs.Found.{Takes, Decodes, IsFound};
ghost use Rattle.file_contents.specs.Valid.{AreValid};
ghost use Rattle.used_files.specs.Paths.{File, Place, file_at, used_file};
ghost use Rattle.file_contents.specs.Reading.{diag_in, diag_at};
ghost use Rattle.file_contents.specs.Contents.{code_of_kind as code_of_kind_of};
ghost use Rattle.used_files.specs.Stops.{StopsOnly, FaultRises};

use crate::items::{Item, read_content};
use crate::limits::Limits;
use hdr_core::{CallErr, Code, Diag, FileErr, Files, LONGEST_FILE, Memory, Text};
use pool_reader::{ClassKind, ReadErr};
use std::alloc::Global;
use used_files::{Stop, UsedPath};

/// What was found in the files so far.
#[derive(Drop)]
pub struct Found {
    /// The files that pass a limit. Where there are any, nothing is known of the others.
    pub reading: Vec<Diag>,
    /// The files that spell no class.
    pub format: Vec<Diag>,
    pub items: Vec<Item>,
    /// The bytes of the files, but of those that are too long.
    pub total: u64,
}

/// A diagnostic of a file, at a line or an offset.
pub fn diagnostic(
    alloc: Global,
    file: u32,
    path: &str,
    line: u32,
    code: Code,
    name: &[u8],
) -> Result<Diag, Memory>
    ensures { IfOk result (λ diag. diag ≡ diag_in file path.now line code name.now) }
{
    Ok(Diag {
        file,
        path: Text::of(alloc, path.as_bytes())?,
        line,
        code,
        name: Text::of(alloc, name)?,
    })
}

/// The code of a fault of a class file.
fn code_of_kind(kind: ClassKind) -> Code
    ensures { result ≡ code_of_kind_of kind }
{
    match kind {
        ClassKind::F1 => Code::F1,
        ClassKind::F2 => Code::F2,
        ClassKind::F3 => Code::F3,
        ClassKind::F4 => Code::F4,
        ClassKind::F5 => Code::F5,
        ClassKind::F6 => Code::F6,
        ClassKind::F7 => Code::F7,
        ClassKind::F8 => Code::F8,
        ClassKind::F9 => Code::F9,
        ClassKind::F10 => Code::F10,
        ClassKind::F11 => Code::F11,
        ClassKind::F12 => Code::F12,
        ClassKind::F13 => Code::F13,
    }
}

/// Reads a file, and answers whether it isn't too long.
fn read_bytes<F: Files>(path: &str, files: &mut F, bytes: &mut Vec<u8>) -> Result<bool, CallErr>
    requires { HoldsPath (F.held files.old) path.now }
    ensures whole { IfOk result (λ fits. fits ≡ true →
        HoldsBytes (F.held files.old) path.now bytes.new.items) }
    ensures short { IfOk result (λ fits. fits ≡ true → length bytes.new.items ≤ LONGEST_FILE) }
    ensures long { IfOk result (λ fits. fits ≡ false →
        HoldsBeyond (F.held files.old) path.now LONGEST_FILE) }
    ensures held { F.held files.new ≡ F.held files.old }
    ensures faults { CountsFault F.faults files.old files.new result CallErr.Failed }
{
    match files.read(path, bytes) {
        Ok(()) => Ok(bytes.len() <= LONGEST_FILE),
        Err(FileErr::TooLong) => Ok(false),
        Err(FileErr::Failed) => Err(CallErr::Failed),
        Err(FileErr::Memory) => Err(CallErr::Memory),
    }
}

/// Takes apart what a file holds.
fn decode(
    alloc: Global,
    file: u32,
    place: UsedPath<'_>,
    bytes: &[u8],
    found: &mut Found,
) -> Result<(), Memory>
    requires { length bytes.now ≤ 2 ^ 24 }
    ensures decodes { OnOk result
        (Decodes (file, used_file place.entry bytes.now) found.old found.new) }
    ensures valid { OnOk result
        (AreValid found.old.items.items → AreValid found.new.items.items) }
    ensures grew { OnOk result
        (length found.new.items.items ≤ length found.old.items.items + 1) }
{
    match read_content(alloc, &place, bytes) {
        Ok(content) => {
            let path = place.into_path();
            found.items.push(Item {
                file,
                path,
                content,
            })?;
            Ok(())
        }
        Err(ReadErr::Fault(fault)) => {
            let code = code_of_kind(fault.kind);
            let diag = diagnostic(alloc, file, place.path(), fault.offset, code, b"")?;
            found.format.push(diag)?;
            Ok(())
        }
        Err(ReadErr::Memory) => Err(Memory),
    }
}

/// Counts the bytes of a file, and takes it apart where they don't pass the limit.
fn count(
    alloc: Global,
    limits: Limits,
    file: u32,
    place: UsedPath<'_>,
    bytes: &[u8],
    found: &mut Found,
) -> Result<bool, Memory>
    requires short { length bytes.now ≤ LONGEST_FILE }
    requires few { found.old.total ≤ limits.bytes }
    ensures takes { IfOk result (λ goes_on.
        Takes limits (file, used_file place.entry bytes.now) found.old found.new goes_on) }
    ensures few { IfOk result (λ goes_on. goes_on ≡ true → found.new.total ≤ limits.bytes) }
    ensures valid { OnOk result
        (AreValid found.old.items.items → AreValid found.new.items.items) }
    ensures grew { OnOk result
        (length found.new.items.items ≤ length found.old.items.items + 1) }
{
    found.total += bytes.len() as u64;
    if found.total > limits.bytes as u64 {
        let diag = diagnostic(alloc, file, place.path(), 0, Code::L7, b"")?;
        found.reading.push(diag)?;
        return Ok(false);
    }
    decode(alloc, file, place, bytes, found)?;
    Ok(true)
}

/// Reads a file, and answers whether reading goes on behind it.
fn take_file<F: Files>(
    alloc: Global,
    limits: Limits,
    file: u32,
    place: UsedPath<'_>,
    files: &mut F,
    bytes: &mut Vec<u8>,
    found: &mut Found,
) -> Result<bool, Stop>
    requires held { HoldsPath (F.held files.old) place.path }
    requires few { found.old.total ≤ limits.bytes }
    ensures takes { IfOk result (λ goes_on. IfSome (F.held files.old) (λ held.
        Takes limits (file, file_at held place.entry) found.old found.new goes_on)) }
    ensures few { IfOk result (λ goes_on. goes_on ≡ true → found.new.total ≤ limits.bytes) }
    ensures valid { OnOk result
        (AreValid found.old.items.items → AreValid found.new.items.items) }
    ensures grew { OnOk result
        (length found.new.items.items ≤ length found.old.items.items + 1) }
    ensures stops { IfErr result (λ stop.
        StopsOnly stop (λ path. path ≡ place.entry.path) (λ _. ⊥)) }
    ensures faults { FaultRises result (F.faults files.old) (F.faults files.new) }
    ensures held { F.held files.new ≡ F.held files.old }
{
    match read_bytes(place.path(), files, bytes) {
        Ok(true) => Ok(count(alloc, limits, file, place, bytes, found)?),
        Ok(false) => {
            let diag = diagnostic(alloc, file, place.path(), 0, Code::L1, b"")?;
            found.reading.push(diag)?;
            Ok(true)
        }
        Err(CallErr::Failed) => Err(Stop::Fault(place.into_path().into_string())),
        Err(CallErr::Memory) => Err(Stop::Memory),
    }
}

/// Reads the used files in their order, up to the one that passes the limit of bytes.
pub fn read_files<F: Files>(
    alloc: Global,
    limits: Limits,
    used: Vec<UsedPath<'_>>,
    files: &mut F,
) -> Result<Found, Stop>
    requires held { (place : Place) → Contains used.items place →
        HoldsPath (F.held files.old) place.path }
    requires few { length used.items ≤ limits.files }
    ensures found { IfOk result (λ found. IfSome (F.held files.old) (λ held.
        IsFound limits (map (file_at held) used.entry.items) found)) }
    ensures valid { IfOk result (λ found. AreValid found.items.items) }
    ensures few { IfOk result (λ found.
        length found.items.items ≤ length used.entry.items) }
    ensures stops { IfErr result (λ stop. StopsOnly stop
        (λ path. Contains (map (λ place. place.path) used.entry.items) path) (λ _. ⊥)) }
    ensures faults { FaultRises result (F.faults files.old) (F.faults files.new) }
    ensures held { F.held files.new ≡ F.held files.old }
{
    let mut found = Found {
        reading: Vec::new(alloc),
        format: Vec::new(alloc),
        items: Vec::with_capacity(alloc, used.len())?,
        total: 0,
    };
    let mut bytes = Vec::new(alloc);
    let mut file = 0;
    for place in used {
        if !take_file(alloc, limits, file, place, files, &mut bytes, &mut found)? {
            return Ok(found);
        }
        file += 1;
    }
    Ok(found)
}
