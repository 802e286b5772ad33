//! What the used files hold.
ghost use Rattle.std.specs.Prelude.{◌≡◌, ◌≤◌, ◌^◌, IfOk, length};
ghost use Rattle.pool_reader.specs.Reading.{Answers};
ghost use Rattle.used_files.specs.Paths.{Place, UsedFile, used_file};
ghost use Rattle.file_contents.specs.Contents.{module_content as module_content_of, content_of};
ghost use Rattle.file_contents.specs.Contents.{item_name};
ghost use Rattle.file_contents.specs.Valid.{IsValidContent};

use class_desc::ClassDesc;
use class_reader::read_class;
use hdr_core::{Memory, Text};
use java_names::name_of_path;
use pool_reader::ReadErr;
use std::alloc::Global;
use used_files::{FilePath, UsedPath, is_module, part_below, stem};

/// What a file holds.
#[derive(Drop)]
pub enum Content {
    Class(ClassDesc),
    /// A module's description: its path below the root, the name of the class that it counts as,
    /// and its bytes.
    Module {
        below: FilePath,
        name: Text,
        bytes: Text,
    },
}

/// A used file that was read, with its number.
#[derive(Drop)]
pub struct Item {
    pub file: u32,
    pub path: FilePath,
    pub content: Content,
}

impl Item {
    /// The name of the class, or of the class that a module counts as.
    pub fn name(&self) -> &[u8]
        ensures { result.now ≡ item_name self.now }
    {
        match &self.content {
            Content::Class(desc) => desc.name.bytes(),
            Content::Module {
                below: _,
                name,
                bytes: _,
            } => name.bytes(),
        }
    }
}

/// The content of a module's description at a path below its root.
fn module_content(alloc: Global, below: &str, bytes: &[u8]) -> Result<Content, Memory>
    ensures { IfOk result (λ content. content ≡ module_content_of below.now bytes.now) }
{
    Ok(Content::Module {
        below: FilePath::from(String::from_str(alloc, below)?),
        name: name_of_path(alloc, stem(below))?,
        bytes: Text::of(alloc, bytes)?,
    })
}

/// What the bytes of a used file are: a class, or a module's description.
pub fn read_content(alloc: Global, place: &UsedPath<'_>, bytes: &[u8]) -> Result<Content, ReadErr>
    requires { length bytes.now ≤ 2 ^ 24 }
    ensures exact { Answers (λ content. content) result
        (content_of (used_file place.now bytes.now)) }
    ensures valid { IfOk result IsValidContent }
{
    if is_module(place.path()) {
        let below = part_below(place.root(), place.path());
        let content = module_content(alloc, below, bytes)?;
        return Ok(content);
    }
    let desc = read_class(alloc, bytes)?;
    Ok(Content::Class(desc))
}
