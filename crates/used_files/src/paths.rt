//! The parts of paths, and what they tell of a file.
ghost use Rattle.std.specs.Prelude.{◌≡◌, ◌<◌, IfSome, length, codes, Option, option_map};
ghost use Rattle.std.specs.List.{list_any};
ghost use Rattle.option_words.specs.Seen.{parts_seen, text_seen};
ghost use Rattle.used_files.specs.Paths.{first_folder as first_folder_of, parts_of, front_of};
ghost use Rattle.used_files.specs.Paths.{last_part as last_part_of, behind_root as behind_root_of};
ghost use Rattle.used_files.specs.Paths.{part_below as part_below_of, is_meta_inf};
ghost use Rattle.used_files.specs.Paths.{is_class_path as is_class_path_of};
ghost use Rattle.used_files.specs.Paths.{is_used as is_used_of};
ghost use Rattle.used_files.specs.Paths.{is_module as is_module_of, stem as stem_of};

use crate::kinds::FileKinds;

/// The first folder of a path, and what stands behind its `/`.
fn first_folder(path: &str) -> Option<(&str, &str)>
    ensures parts { parts_seen result ≡ first_folder_of path.now }
    ensures shorter { IfSome result (λ parts. length parts.1.now < length path.now) }
{
    path.split_once('/')
}

/// Whether one of the folders of a path is META-INF.
fn has_meta_inf(path: &str) -> bool
    ensures { result ≡ list_any is_meta_inf (front_of (parts_of path.now)) }
{
    let mut rest = path;
    while let Some((folder, behind)) = first_folder(rest) {
        if folder == "META-INF" {
            return true;
        }
        rest = behind;
    }
    false
}

/// The last part of a path.
fn last_part(path: &str) -> &str
    ensures { result.now ≡ last_part_of path.now }
{
    let mut rest = path;
    while let Some(folder) = first_folder(rest) {
        rest = folder.1;
    }
    rest
}

/// What stands behind the root and a `/`.
fn behind_root<'a>(root: &str, path: &'a str) -> Option<&'a str>
    ensures { text_seen result ≡ behind_root_of root.now path.now }
{
    match path.strip_prefix(root) {
        Some(rest) => rest.strip_prefix('/'),
        None => None,
    }
}

/// The part of a path below a root. Of a path that doesn't lie below it, as a root that is itself
/// a file, it is the last part.
pub fn part_below<'a>(root: &str, path: &'a str) -> &'a str
    ensures { result.now ≡ part_below_of root.now path.now }
{
    match behind_root(root, path) {
        Some(below) => below,
        None => last_part(path),
    }
}

/// Whether a path is that of a class file, and no folder META-INF below the root has it.
fn is_class_path(root: &str, path: &str) -> bool
    ensures { result ≡ is_class_path_of root.now path.now }
{
    path.as_bytes().ends_with(b".class") && !has_meta_inf(part_below(root, path))
}

/// Whether a path is that of a module's description (JVMS 4.1).
pub fn is_module(path: &str) -> bool
    ensures { result ≡ is_module_of path.now }
{
    last_part(path) == "module-info.class"
}

/// Whether a path under a root is used, by the kinds of files that are.
pub fn is_used(kinds: FileKinds, root: &str, path: &str) -> bool
    ensures { result ≡ is_used_of kinds root.now path.now }
{
    match kinds {
        FileKinds::ClassesAndModules => is_class_path(root, path),
        FileKinds::Classes => is_class_path(root, path) && !is_module(path),
    }
}

/// The path of a class file without its ending.
pub fn stem(path: &str) -> &str
    ensures { result.now ≡ stem_of path.now }
{
    match path.strip_suffix(".class") {
        Some(stem) => stem,
        None => path,
    }
}
