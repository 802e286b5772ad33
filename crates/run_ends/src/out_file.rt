//! Files that are written, and their order.
ghost use Rattle.std.specs.Prelude.{◌≡◌, List, map, IfOk};
ghost use Rattle.used_files.specs.Order.{in_order};
ghost use Rattle.run_ends.specs.OutFiles.{file_order, file_seen};

use hdr_core::{Memory, Text};
use std::alloc::Global;
use used_files::FilePath;

/// A file that is written. Files are ordered by their paths, and those of one path by their bytes.
#[derive(Drop, PartialEq, Eq, PartialOrd, Ord)]
pub struct OutFile {
    pub path: FilePath,
    pub bytes: Text,
}

/// The files in their order, each once.
pub fn sort_files(alloc: Global, mut list: Vec<OutFile>) -> Result<Vec<OutFile>, Memory>
    ensures { IfOk result (λ sorted.
        map file_seen sorted.items ≡ in_order file_order (map file_seen list.items)) }
{
    list.as_mut_slice().sort(alloc)?;
    list.dedup();
    Ok(list)
}
