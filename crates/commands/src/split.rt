//! Classes and modules, each by themselves.
ghost use Rattle.std.specs.Prelude.{◌≡◌, ◌++◌, IfOk, OnOk, map};
ghost use Rattle.std.specs.List.{flat_map};
ghost use Rattle.commands.specs.Outcome.{below_output as below_output_of, module_files};
ghost use Rattle.file_contents.specs.Contents.{class_in, classes};
ghost use Rattle.commands.specs.Sources.{sources_in, sources};
ghost use Rattle.run_ends.specs.OutFiles.{file_seen};

use class_desc::ClassDesc;
use file_contents::{Content, Item};
use hdr_core::Memory;
use run_ends::OutFile;
use std::alloc::Global;
use used_files::FilePath;

/// The file that a class was read from.
#[derive(Drop)]
pub struct Source {
    pub file: u32,
    pub path: FilePath,
}

/// Classes with the files that they were read from, and the files of modules.
#[derive(Drop)]
pub struct Parts {
    pub sources: Vec<Source>,
    pub classes: Vec<ClassDesc>,
    pub modules: Vec<OutFile>,
}

/// A path below the output folder.
pub fn below_output(alloc: Global, output: &str, below: &str) -> Result<FilePath, Memory>
    ensures { IfOk result (λ path. path ≡ below_output_of output.now below.now) }
{
    let mut path = String::from_str(alloc, output)?;
    path.push_str("/")?;
    path.push_str(below)?;
    Ok(FilePath::from(path))
}

/// Puts an item behind the others of its kind.
fn push_item(alloc: Global, output: &str, item: Item, parts: &mut Parts) -> Result<(), Memory>
    ensures sources { OnOk result (parts.new.sources.items
        ≡ parts.old.sources.items ++ sources_in item) }
    ensures classes { OnOk result (parts.new.classes.items
        ≡ parts.old.classes.items ++ class_in item.content) }
    ensures modules { OnOk result (map file_seen parts.new.modules.items
        ≡ map file_seen parts.old.modules.items ++ module_files output.now item.content) }
{
    let Item {
        file,
        path,
        content,
    } = item;
    match content {
        Content::Class(desc) => {
            parts.sources.push(Source { file, path })?;
            parts.classes.push(desc)?;
        }
        Content::Module {
            below,
            name: _,
            bytes,
        } => {
            let path = below_output(alloc, output, below.as_str())?;
            parts.modules.push(OutFile { path, bytes })?;
        }
    }
    Ok(())
}

/// The classes and modules of the items.
pub fn split(alloc: Global, output: &str, items: Vec<Item>) -> Result<Parts, Memory>
    ensures sources { IfOk result (λ parts. parts.sources.items ≡ sources items.items) }
    ensures classes { IfOk result (λ parts. parts.classes.items ≡ classes items.items) }
    ensures modules { IfOk result (λ parts. map file_seen parts.modules.items
        ≡ flat_map (λ item. module_files output.now item.content) items.items) }
{
    let mut parts = Parts {
        sources: Vec::with_capacity(alloc, items.len())?,
        classes: Vec::with_capacity(alloc, items.len())?,
        modules: Vec::new(alloc),
    };
    for item in items {
        push_item(alloc, output, item, &mut parts)?;
    }
    Ok(parts)
}
