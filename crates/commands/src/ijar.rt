//! The command `ijar`: class files to stripped class files.
ghost use Rattle.std.specs.Prelude.{◌≡◌, [], IfOk, IfErr, IfSome, map};
ghost use Rattle.commands.specs.Outcome.{files_of, ijar, made, diagnosed};
ghost use Rattle.file_contents.specs.Valid.{AreValid};
ghost use Rattle.used_files.specs.Parts.{now_of};
ghost use Rattle.used_files.specs.Paths.{tree};
ghost use Rattle.used_files.specs.declared.kinds.FileKinds.TheVariants.{ClassesAndModules};
ghost use Rattle.commands.specs.Phases.{first_phase, item_phases};
ghost use Rattle.file_contents.specs.Contents.{items_of};
ghost use Rattle.used_files.specs.Stops.{IsFilled, StopsOnly, FaultRises, IsRootOrUsed};
ghost use Rattle.run_ends.specs.OutFiles.{file_seen};

use crate::split::split;
use crate::write::write_classes;
use file_contents::{Item, Limits, declared_twice, read_items, stop_at};
use hdr_core::{Files, sort_diags};
use ijar_strip::into_all_stripped;
use run_ends::{OutFile, sort_files};
use std::alloc::Global;
use used_files::{FileKinds, Stop};

/// The files that are written for classes and modules: of these as they are, of those the kept
/// ones without what their clients don't see.
fn strip_items(alloc: Global, output: &str, items: Vec<Item>) -> Result<Vec<OutFile>, Stop>
    ensures files { IfOk result (λ list.
        map file_seen list.items ≡ files_of output.now items.items) }
    ensures fine { IfOk result (λ _. item_phases items.items ≡ []) }
    ensures stops { IfErr result (λ stop. StopsOnly stop (λ _. ⊥)
        (λ list. IsFilled list × (item_phases items.items ≡ list))) }
{
    let repeated = declared_twice(alloc, &items)?;
    stop_at(repeated)?;
    let parts = split(alloc, output, items)?;
    let stripped = into_all_stripped(alloc, parts.classes)?;
    let modules = parts.modules;
    let written = write_classes(alloc, output, &parts.sources, &stripped, modules)?;
    stop_at(written.limits)?;
    Ok(written.files)
}

/// The files that are written for what lies under the roots, in any order, or the diagnostics of
/// the first phase that has one.
fn strip_roots<F: Files>(
    alloc: Global,
    limits: Limits,
    inputs: &[&str],
    output: &str,
    files: &mut F,
) -> Result<Vec<OutFile>, Stop>
    ensures files { IfOk result (λ list. IfSome (F.held files.old) (λ held.
        map file_seen list.items
        ≡ files_of output.now
        (items_of (tree ClassesAndModules held (map now_of inputs.now))))) }
    ensures fine { IfOk result (λ _. IfSome (F.held files.old) (λ held.
        first_phase limits item_phases
        (tree ClassesAndModules held (map now_of inputs.now)) ≡ [])) }
    ensures valid { IfOk result (λ _. IfSome (F.held files.old) (λ held.
        AreValid (items_of (tree ClassesAndModules held (map now_of inputs.now))))) }
    ensures stops { IfErr result (λ stop. StopsOnly stop
        (λ path. IfSome (F.held files.old)
        (λ held. IsRootOrUsed ClassesAndModules held (map now_of inputs.now) path))
        (λ list. IsFilled list × IfSome (F.held files.old) (λ held.
        first_phase limits item_phases
        (tree ClassesAndModules held (map now_of inputs.now)) ≡ list))) }
    ensures faults { FaultRises result (F.faults files.old) (F.faults files.new) }
    ensures held { F.held files.new ≡ F.held files.old }
{
    let items = read_items(alloc, limits, FileKinds::ClassesAndModules, inputs, files)?;
    strip_items(alloc, output, items)
}

/// The command `ijar` within limits: the files that are written for what lies under the roots, in
/// their order, or the diagnostics of the first phase that has one, in theirs.
pub fn strip_inputs<F: Files>(
    alloc: Global,
    limits: Limits,
    inputs: &[&str],
    output: &str,
    files: &mut F,
) -> Result<Vec<OutFile>, Stop>
    ensures files { IfOk result (λ list. IfSome (F.held files.old) (λ held.
        ijar limits output.now (tree ClassesAndModules held (map now_of inputs.now))
        ≡ made (map file_seen list.items))) }
    ensures valid { IfOk result (λ _. IfSome (F.held files.old) (λ held.
        AreValid (items_of (tree ClassesAndModules held (map now_of inputs.now))))) }
    ensures stops { IfErr result (λ stop. StopsOnly stop
        (λ path. IfSome (F.held files.old)
        (λ held. IsRootOrUsed ClassesAndModules held (map now_of inputs.now) path))
        (λ list. IfSome (F.held files.old) (λ held.
        ijar limits output.now (tree ClassesAndModules held (map now_of inputs.now))
        ≡ diagnosed list))) }
    ensures faults { FaultRises result (F.faults files.old) (F.faults files.new) }
    ensures held { F.held files.new ≡ F.held files.old }
{
    match strip_roots(alloc, limits, inputs, output, files) {
        Ok(list) => Ok(sort_files(alloc, list)?),
        Err(Stop::Diagnosed(list)) => Err(Stop::Diagnosed(sort_diags(alloc, list)?)),
        Err(Stop::Fault(path)) => Err(Stop::Fault(path)),
        Err(Stop::Memory) => Err(Stop::Memory),
    }
}
