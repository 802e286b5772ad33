ghost use Rattle.std.specs.Prelude.{◌≡◌, ◌≢◌, ◌≤◌, ◌<◌, ◌+◌, ◌++◌, ◌∷◌, [], filter, Some, None};
ghost use Rattle.std.specs.Prelude.{Err, length, map, string_bytes, IfOk, IfSome, IsSome};
ghost use Rattle.std.specs.Prelude.{IsErrOf, OnOk, OnErr, MatchOption};
ghost use Rattle.hdr_core.specs.Held.{held_at, is_below, is_under, IsListing, with_file};
ghost use Rattle.hdr_core.specs.InMemory.{held_files};

use crate::errors::FileErr;
use crate::files::LONGEST_FILE;
use std::alloc::{AllocError, Global};

/// A file in memory.
#[derive(Drop)]
pub struct HeldFile {
    pub path: String,
    pub bytes: Vec<u8>,
}

fn lies_under(root: &[u8], path: &[u8]) -> bool
    ensures { result ≡ is_under root.now path.now }
{
    path.starts_with(root) && begins_below(&path[root.len()..])
}

// Nothing, or what begins with a '/'.
fn begins_below(rest: &[u8]) -> bool
    ensures { result ≡ is_below rest.now }
{
    match rest {
        [] => true,
        [first, ..] => *first == b'/',
    }
}

// The paths under a root, as often as they stand there.
fn collect_under(alloc: Global, files: &[HeldFile], root: &str) -> Result<Vec<String>, AllocError>
    ensures { IfOk result (λ paths. map string_bytes paths.items
        ≡ filter (is_under root.now) (map (λ file. string_bytes file.path) files.now)) }
{
    let mut paths = Vec::new(alloc);
    for file in files {
        let path = file.path.as_str();
        if lies_under(root.as_bytes(), path.as_bytes()) {
            paths.push(String::from_str(alloc, path)?)?;
        }
    }
    Ok(paths)
}

// The paths under a root, each once. They are sorted, so this is not quadratic in their number.
pub(crate) fn list_held(
    alloc: Global,
    files: &[HeldFile],
    root: &str,
) -> Result<Vec<String>, AllocError>
    ensures { IfOk result
        (λ paths. IsListing (held_files files.now) root.now (map string_bytes paths.items)) }
{
    let mut paths = collect_under(alloc, files, root)?;
    paths.sort_unstable();
    paths.dedup();
    Ok(paths)
}

// The first file of a path.
fn find_held<'a>(files: &'a [HeldFile], path: &str) -> Option<&'a HeldFile>
    ensures { MatchOption result (held_at (held_files files.now) path.now ≡ None)
        (λ file. held_at (held_files files.now) path.now ≡ Some file.now.bytes.items) }
{
    for file in files {
        if file.path.as_str() == path {
            return Some(file);
        }
    }
    None
}

pub(crate) fn copy_held(files: &[HeldFile], path: &str, into: &mut Vec<u8>) -> Result<(), FileErr>
    requires { IsSome (held_at (held_files files.now) path.now) }
    ensures bytes { OnOk result (held_at (held_files files.now) path.now ≡ Some into.new.items) }
    ensures fits { OnOk result (length into.new.items ≤ LONGEST_FILE) }
    ensures too_long { IsErrOf result FileErr.TooLong
        → IfSome (held_at (held_files files.now) path.now)
        (λ bytes. LONGEST_FILE < length bytes) }
    ensures sure { result ≢ Err FileErr.Failed }
{
    let Some(file) = find_held(files, path) else {
        unreachable!()
    };
    if file.bytes.len() > LONGEST_FILE {
        return Err(FileErr::TooLong);
    }
    into.clear();
    into.extend_from_slice(&file.bytes)?;
    Ok(())
}

// Puts one more file behind the written ones.
pub(crate) fn push_file(
    alloc: Global,
    written: &mut Vec<HeldFile>,
    path: &str,
    bytes: &[u8],
) -> Result<(), AllocError>
    ensures ok { OnOk result (held_files written.new.items
        ≡ held_files written.old.items ++ (path.now, bytes.now) ∷ []) }
    ensures err { OnErr result (written.new.items ≡ written.old.items) }
{
    let file = HeldFile {
        path: String::from_str(alloc, path)?,
        bytes: Vec::from_slice(alloc, bytes)?,
    };
    Ok(written.push(file)?)
}
