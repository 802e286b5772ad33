//! Which keys of a list stood there before.
ghost use Rattle.std.specs.Prelude.{◌≡◌, ◌<◌, ℕ, IfOk, length, map, slice_index_or, false};
ghost use Rattle.std.specs.Vec.{vec_len};
ghost use Rattle.used_files.specs.Parts.{now_of};
ghost use Rattle.used_files.specs.Paths.{is_repeated};

use hdr_core::Memory;
use std::alloc::Global;
use std::collections::HashSet;

/// For each key whether it stands there not for the first time.
pub fn repeated_marks(alloc: Global, keys: &[&[u8]]) -> Result<Vec<bool>, Memory>
    ensures len { IfOk result (λ marks. vec_len marks ≡ length keys.now) }
    ensures marks { IfOk result (λ marks. (k : ℕ) → k < length keys.now →
        slice_index_or marks.items k false ≡ is_repeated (map now_of keys.now) k) }
{
    let mut seen = HashSet::with_capacity(alloc, keys.len())?;
    let mut marks = Vec::with_capacity(alloc, keys.len())?;
    for key in keys {
        let is_new = seen.insert(*key)?;
        marks.push(!is_new)?;
    }
    Ok(marks)
}
