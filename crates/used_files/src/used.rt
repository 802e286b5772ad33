//! Which of the listed paths are used, and in which order.
ghost use Rattle.std.specs.Prelude.{◌≡◌, ◌<◌, ◌++◌, [], ◌∷◌, ℕ, List, IfOk, OnOk, IfErr, IfSome};
ghost use Rattle.std.specs.Prelude.{Contains, map, filter, length, string_bytes, slice_index_or};
ghost use Rattle.std.specs.Prelude.{false, if◌then◌else◌};
ghost use Rattle.std.specs.Vec.{vec_len};
ghost use Rattle.std.specs.List.{flat_map};
ghost use Rattle.hdr_core.specs.Held.{IsListing};
ghost use Rattle.used_files.specs.Order.{in_order};
ghost use Rattle.used_files.specs.Parts.{now_of};
ghost use Rattle.used_files.specs.Paths.{File, path_order, used, places, place_at};
ghost use Rattle.used_files.specs.Paths.{first_uses as first_uses_of, is_repeated};
ghost use Rattle.used_files.specs.Paths.{is_used as is_used_of};
ghost use Rattle.used_files.specs.Stops.{StopsOnly, FaultRises};

use crate::file_path::FilePath;
use crate::kinds::FileKinds;
use crate::paths::is_used;
use crate::repeats::repeated_marks;
use crate::stop::Stop;
use hdr_core::{CallErr, Files, Memory};
use std::alloc::Global;
use std::marker::Model;

/// A used path, with the root under which it is used.
#[derive(Drop)]
pub struct UsedPath<'a> {
    root: &'a str,
    path: FilePath,
}

impl<'a> Model for UsedPath<'a> {
    ghost use Rattle.used_files.specs.Paths.{Place, place_at};

    ghost Value = { Place };

    ghost view = { λ used. place_at used.root.now used.path };
}

impl<'a> UsedPath<'a> {
    pub fn of(root: &'a str, path: FilePath) -> UsedPath<'a>
        ensures { result ≡ place_at root.now path }
    {
        UsedPath { root, path }
    }

    pub fn root(&self) -> &str
        ensures { result.now ≡ self.now.root }
    {
        self.root
    }

    pub fn path(&self) -> &str
        ensures { result.now ≡ self.now.path }
    {
        self.path.as_str()
    }

    /// Takes no memory.
    pub fn into_path(self) -> FilePath
        ensures { result ≡ self.entry.path }
    {
        let UsedPath { root: _, path } = self;
        path
    }
}

/// Puts a path behind the others, if it is used.
fn push_used(
    kinds: FileKinds,
    root: &str,
    path: String,
    paths: &mut Vec<FilePath>,
) -> Result<(), Memory>
    ensures { OnOk result (paths.new.items ≡ paths.old.items
        ++ (if is_used_of kinds root.now (string_bytes path)
        then string_bytes path ∷ [] else [])) }
{
    if is_used(kinds, root, path.as_str()) {
        paths.push(FilePath::from(path))?;
    }
    Ok(())
}

/// Those that are used of the paths that were listed under a root.
fn chosen_paths(
    alloc: Global,
    kinds: FileKinds,
    root: &str,
    listed: Vec<String>,
) -> Result<Vec<FilePath>, Memory>
    ensures { IfOk result (λ paths.
        paths.items ≡ filter (is_used_of kinds root.now) (map string_bytes listed.items)) }
{
    let mut paths = Vec::with_capacity(alloc, listed.len())?;
    for path in listed {
        push_used(kinds, root, path, &mut paths)?;
    }
    Ok(paths)
}

/// The paths in the order of their bytes, each once.
fn sort_paths(alloc: Global, mut paths: Vec<FilePath>) -> Result<Vec<FilePath>, Memory>
    ensures { IfOk result (λ sorted. sorted.items ≡ in_order path_order paths.items) }
{
    paths.as_mut_slice().sort(alloc)?;
    paths.dedup();
    Ok(paths)
}

/// The paths that are used of those that were listed under a root, ordered by their bytes, each
/// once.
pub fn used_paths(
    alloc: Global,
    kinds: FileKinds,
    root: &str,
    listed: Vec<String>,
) -> Result<Vec<FilePath>, Memory>
    ensures { IfOk result (λ paths. (held : List File) →
        IsListing held root.now (map string_bytes listed.items)
        → paths.items ≡ used kinds held root.now) }
{
    let paths = chosen_paths(alloc, kinds, root, listed)?;
    sort_paths(alloc, paths)
}

/// Puts the paths of a root behind the others.
fn push_places<'a>(
    root: &'a str,
    paths: Vec<FilePath>,
    all: &mut Vec<UsedPath<'a>>,
) -> Result<(), Memory>
    ensures { OnOk result (all.new.items ≡ all.old.items ++ map (place_at root.now) paths.items) }
{
    all.reserve(paths.len())?;
    for path in paths {
        all.push(UsedPath::of(root, path))?;
    }
    Ok(())
}

/// Lists a root.
fn list_root<F: Files>(
    alloc: Global,
    kinds: FileKinds,
    root: &str,
    files: &mut F,
) -> Result<Vec<FilePath>, Stop>
    ensures used { IfOk result (λ paths.
        IfSome (F.held files.old) (λ held. paths.items ≡ used kinds held root.now)) }
    ensures stops { IfErr result (λ stop. StopsOnly stop (λ path. path ≡ root.now) (λ _. ⊥)) }
    ensures faults { FaultRises result (F.faults files.old) (F.faults files.new) }
    ensures held { F.held files.new ≡ F.held files.old }
{
    let path = String::from_str(alloc, root)?;
    match files.list(alloc, root) {
        Ok(listed) => {
            let paths = used_paths(alloc, kinds, root, listed)?;
            Ok(paths)
        }
        Err(CallErr::Failed) => Err(Stop::Fault(path)),
        Err(CallErr::Memory) => Err(Stop::Memory),
    }
}

/// Lists the roots in their order.
pub fn list_roots<'a, F: Files>(
    alloc: Global,
    kinds: FileKinds,
    roots: &[&'a str],
    files: &mut F,
) -> Result<Vec<UsedPath<'a>>, Stop>
    ensures used { IfOk result (λ all. IfSome (F.held files.old) (λ held.
        all.items ≡ flat_map (places kinds held) (map now_of roots.now))) }
    ensures stops { IfErr result (λ stop. StopsOnly stop
        (λ path. Contains (map now_of roots.now) path) (λ _. ⊥)) }
    ensures faults { FaultRises result (F.faults files.old) (F.faults files.new) }
    ensures held { F.held files.new ≡ F.held files.old }
{
    let mut all = Vec::new(alloc);
    for root in roots {
        let paths = list_root(alloc, kinds, root, files)?;
        push_places(root, paths, &mut all)?;
    }
    Ok(all)
}

/// The paths of a list, as bytes.
fn path_keys<'a>(alloc: Global, all: &'a [UsedPath<'_>]) -> Result<Vec<&'a [u8]>, Memory>
    ensures { IfOk result (λ keys. map now_of keys.items ≡ map (λ place. place.path) all.now) }
{
    let mut keys = Vec::with_capacity(alloc, all.len())?;
    for place in all {
        keys.push(place.path().as_bytes())?;
    }
    Ok(keys)
}

/// For each path whether it is used before.
fn repeated_paths(alloc: Global, all: &[UsedPath<'_>]) -> Result<Vec<bool>, Memory>
    ensures len { IfOk result (λ marks. vec_len marks ≡ length all.now) }
    ensures marks { IfOk result (λ marks. (k : ℕ) → k < length all.now →
        slice_index_or marks.items k false ≡ is_repeated (map (λ place. place.path) all.now) k) }
{
    let keys = path_keys(alloc, all)?;
    repeated_marks(alloc, &keys)
}

/// Puts a place behind the others, if its path isn't used before.
fn push_use<'a>(
    place: UsedPath<'a>,
    is_repeated: bool,
    uses: &mut Vec<UsedPath<'a>>,
) -> Result<(), Memory>
    ensures { OnOk result (uses.new.items ≡ uses.old.items
        ++ (if is_repeated then [] else place.entry ∷ [])) }
{
    if !is_repeated {
        uses.push(place)?;
    }
    Ok(())
}

/// Of each path its first use.
pub fn first_uses(alloc: Global, all: Vec<UsedPath<'_>>) -> Result<Vec<UsedPath<'_>>, Memory>
    ensures { IfOk result (λ uses. uses.items ≡ first_uses_of all.entry.items) }
{
    let repeated = repeated_paths(alloc, &all)?;
    let mut uses = Vec::with_capacity(alloc, all.len())?;
    let mut index = 0;
    for place in all {
        let is_repeated = repeated[index];
        push_use(place, is_repeated, &mut uses)?;
        index += 1;
    }
    Ok(uses)
}
