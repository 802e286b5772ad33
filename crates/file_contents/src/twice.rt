//! Classes and modules that are declared twice.
ghost use Rattle.std.specs.Prelude.{◌≡◌, ◌<◌, ◌++◌, [], ◌∷◌, ℕ, IfOk, OnOk, length, map};
ghost use Rattle.std.specs.Prelude.{slice_index_or, false, if◌then◌else◌};
ghost use Rattle.std.specs.Vec.{vec_len};
ghost use Rattle.used_files.specs.Parts.{now_of};
ghost use Rattle.used_files.specs.Paths.{is_repeated};
ghost use Rattle.file_contents.specs.Reading.{diag_at};
ghost use Rattle.file_contents.specs.Contents.{item_name};
ghost use Rattle.file_contents.specs.Phases.{twice};

use crate::found::diagnostic;
use crate::items::Item;
use hdr_core::{Code, Diag, Memory};
use std::alloc::Global;
use used_files::repeated_marks;

fn name_keys(alloc: Global, items: &[Item]) -> Result<Vec<&[u8]>, Memory>
    ensures { IfOk result (λ keys. map now_of keys.items ≡ map item_name items.now) }
{
    let mut keys = Vec::with_capacity(alloc, items.len())?;
    for item in items {
        keys.push(item.name())?;
    }
    Ok(keys)
}

/// For each item whether one of its name stands before it.
fn repeated_names(alloc: Global, items: &[Item]) -> Result<Vec<bool>, Memory>
    ensures len { IfOk result (λ marks. vec_len marks ≡ length items.now) }
    ensures marks { IfOk result (λ marks. (k : ℕ) → k < length items.now →
        slice_index_or marks.items k false ≡ is_repeated (map item_name items.now) k) }
{
    let keys = name_keys(alloc, items)?;
    repeated_marks(alloc, &keys)
}

/// Tells an item that is declared twice.
fn push_twice(
    alloc: Global,
    item: &Item,
    is_repeated: bool,
    list: &mut Vec<Diag>,
) -> Result<(), Memory>
    ensures { OnOk result (list.new.items ≡ list.old.items ++ (if is_repeated
        then diag_at item.now.file item.now.path Code.C1 (item_name item.now) ∷ [] else [])) }
{
    if is_repeated {
        let path = item.path.as_str();
        list.push(diagnostic(alloc, item.file, path, 0, Code::C1, item.name())?)?;
    }
    Ok(())
}

/// Each class or module but the first of its name.
pub fn declared_twice(alloc: Global, items: &[Item]) -> Result<Vec<Diag>, Memory>
    ensures { IfOk result (λ list. list.items ≡ twice items.now) }
{
    let repeated = repeated_names(alloc, items)?;
    let mut list = Vec::new(alloc);
    for (index, item) in items.iter().enumerate() {
        let is_repeated = repeated[index];
        push_twice(alloc, item, is_repeated, &mut list)?;
    }
    Ok(list)
}
