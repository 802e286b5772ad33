//! The way from the outside to the classes and modules of a job.
ghost use Rattle.std.specs.Prelude.{◌≡◌, ◌≤◌, [], ◌∷◌, IfOk, OnOk, IfErr, IfSome, length, map};
ghost use Rattle.used_files.specs.Parts.{now_of};
ghost use Rattle.used_files.specs.Paths.{tree};
ghost use Rattle.file_contents.specs.Reading.{diag_at};
ghost use Rattle.file_contents.specs.Phases.{file_phases};
ghost use Rattle.file_contents.specs.Contents.{items_of};
ghost use Rattle.used_files.specs.Stops.{IsFilled, StopsOnly, FaultRises, IsRootOrUsed};
ghost use Rattle.file_contents.specs.Found.{TooMany};
ghost use Rattle.file_contents.specs.Valid.{AreValid};

use crate::found::{diagnostic, read_files};
use crate::items::Item;
use crate::limits::Limits;
use hdr_core::{Code, Diag, Files, Memory};
use std::alloc::Global;
use used_files::{FileKinds, Stop, UsedPath, first_uses, list_roots};

/// A list of one diagnostic.
fn one(alloc: Global, diag: Diag) -> Result<Vec<Diag>, Memory>
    ensures { IfOk result (λ list. list.items ≡ diag ∷ []) }
{
    let mut list = Vec::with_capacity(alloc, 1)?;
    list.push(diag)?;
    Ok(list)
}

/// Too many files are told at the first one.
fn check_count(alloc: Global, limits: Limits, used: &[UsedPath<'_>]) -> Result<(), Stop>
    ensures fine { OnOk result (length used.now ≤ limits.files) }
    ensures stops { IfErr result (λ stop. StopsOnly stop (λ _. ⊥) (TooMany limits used.now)) }
{
    let [first, ..] = used else {
        return Ok(());
    };
    if used.len() <= limits.files as usize {
        return Ok(());
    }
    let diag = diagnostic(alloc, 0, first.path(), 0, Code::L8, b"")?;
    let list = one(alloc, diag)?;
    Err(Stop::Diagnosed(list))
}

/// Ends the job where there are diagnostics.
pub fn stop_at(list: Vec<Diag>) -> Result<(), Stop>
    ensures none { OnOk result (list.items ≡ []) }
    ensures some { IfErr result (λ stop. StopsOnly stop (λ _. ⊥)
        (λ told. IsFilled told × (told ≡ list.items))) }
{
    if list.is_empty() {
        return Ok(());
    }
    Err(Stop::Diagnosed(list))
}

/// Lists the roots in their order and reads what is used of them.
pub fn read_items<F: Files>(
    alloc: Global,
    limits: Limits,
    kinds: FileKinds,
    roots: &[&str],
    files: &mut F,
) -> Result<Vec<Item>, Stop>
    ensures items { IfOk result (λ items. IfSome (F.held files.old) (λ held.
        items.items ≡ items_of (tree kinds held (map now_of roots.now)))) }
    ensures fine { IfOk result (λ _. IfSome (F.held files.old) (λ held.
        file_phases limits (tree kinds held (map now_of roots.now)) ≡ [])) }
    ensures valid { IfOk result (λ items. AreValid items.items) }
    ensures few { IfOk result (λ items. length items.items ≤ limits.files) }
    ensures stops { IfErr result (λ stop. StopsOnly stop
        (λ path. IfSome (F.held files.old)
        (λ held. IsRootOrUsed kinds held (map now_of roots.now) path))
        (λ list. IsFilled list × IfSome (F.held files.old) (λ held.
        file_phases limits (tree kinds held (map now_of roots.now)) ≡ list))) }
    ensures faults { FaultRises result (F.faults files.old) (F.faults files.new) }
    ensures held { F.held files.new ≡ F.held files.old }
{
    let listed = list_roots(alloc, kinds, roots, files)?;
    let used = first_uses(alloc, listed)?;
    check_count(alloc, limits, &used)?;
    let found = read_files(alloc, limits, used, files)?;
    stop_at(found.reading)?;
    stop_at(found.format)?;
    Ok(found.items)
}
