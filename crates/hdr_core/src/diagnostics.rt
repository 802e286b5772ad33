ghost use Rattle.std.specs.Prelude.{◌≡◌, ◌++◌, List, IfOk, OnOk, OnErr};
ghost use Rattle.hdr_core.specs.Causes.{CountsFault, grown, GrewByFront};
ghost use Rattle.hdr_core.specs.Diagnostics.{diag_order, named, line_of, printed};
ghost use Rattle.hdr_core.specs.Sorted.{Sorts};

use crate::code::Code;
use crate::errors::CallErr;
use crate::memory::Memory;
use crate::sink::{Sink, write_whole};
use crate::text::Text;
use itoa::Buffer;
use std::alloc::{AllocError, Global};

/// What is wrong at a place of a file.
///
/// Diagnostics are ordered by their fields, the first field first.
#[derive(Debug, Drop, PartialEq, Eq, PartialOrd, Ord)]
pub struct Diag {
    /// The file's number in the order in which files are used.
    pub file: u32,
    /// The line, or the byte offset in a class file.
    pub line: u32,
    pub code: Code,
    /// Whom it is about. Empty where the code names no one.
    pub name: Text,
    pub path: Text,
}

/// Sorts diagnostics by file, line, code, name and path, and keeps equal ones once.
pub fn sort_diags(alloc: Global, mut list: Vec<Diag>) -> Result<Vec<Diag>, Memory>
    ensures sorted { IfOk result (λ sorted. Sorts diag_order list.items sorted.items) }
    ensures sole { IfOk result (λ sorted.
        (other : List Diag) → Sorts diag_order list.items other → other ≡ sorted.items) }
{
    list.as_mut_slice().sort(alloc)?;
    list.dedup();
    Ok(list)
}

// Puts the diagnostic's line behind what is there.
fn append_line(diag: &Diag, text: &mut Vec<u8>) -> Result<(), AllocError>
    ensures { OnOk result (text.new.items ≡ text.old.items ++ line_of diag.now) }
{
    text.extend_from_slice(diag.path.bytes())?;
    text.extend_from_slice(b":")?;
    text.extend_from_slice(Buffer::new().format(diag.line).as_bytes())?;
    text.extend_from_slice(b": ")?;
    text.extend_from_slice(diag.code.name())?;
    text.extend_from_slice(b" ")?;
    text.extend_from_slice(diag.code.text())?;
    append_name(diag.name.bytes(), text)?;
    text.extend_from_slice(b"\n")
}

// Puts a name and its mark behind what is there, and nothing where the name is empty.
fn append_name(name: &[u8], text: &mut Vec<u8>) -> Result<(), AllocError>
    ensures { OnOk result (text.new.items ≡ text.old.items ++ named name.now) }
{
    if !name.is_empty() {
        text.extend_from_slice(b": ")?;
        text.extend_from_slice(name)?;
    }
    Ok(())
}

// Prints the line of one diagnostic at once. The buffer may hold anything.
#[tactic(auto, using(crate::proofs::Grown::grew_nothing))]
fn print_diag<S: Sink>(diag: &Diag, line: &mut Vec<u8>, sink: &mut S) -> Result<(), CallErr>
    ensures ok { OnOk result (S.told sink.new ≡ grown (S.told sink.old) (line_of diag.now)) }
    ensures err { OnErr result
        (GrewByFront (S.told sink.old) (S.told sink.new) (line_of diag.now)) }
    ensures faults { CountsFault S.faults sink.old sink.new result CallErr.Failed }
{
    line.clear();
    append_line(diag, line)?;
    write_whole(line, sink)
}

/// Prints a line for each diagnostic, in their order, and each line at once.
///
/// After a refusal the sink was told a front of that text.
pub fn print_diags<S: Sink>(alloc: Global, list: &[Diag], sink: &mut S) -> Result<(), CallErr>
    ensures ok { OnOk result (S.told sink.new ≡ grown (S.told sink.old) (printed list.now)) }
    ensures err { OnErr result
        (GrewByFront (S.told sink.old) (S.told sink.new) (printed list.now)) }
    ensures faults { CountsFault S.faults sink.old sink.new result CallErr.Failed }
{
    let mut line = Vec::new(alloc);
    for diag in list {
        print_diag(diag, &mut line, sink)?;
    }
    Ok(())
}
