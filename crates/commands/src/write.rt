//! The files of kept classes, or why they have none.
ghost use Rattle.std.specs.Prelude.{◌≡◌, ◌≢◌, ◌++◌, [], ◌∷◌, IfOk, OnOk, MatchOption, Some};
ghost use Rattle.std.specs.Prelude.{Option, None, option_map, length, map, codes, string_bytes};
ghost use Rattle.std.specs.List.{flat_map, zip};
ghost use Rattle.class_desc.specs.Layout.{layout};
ghost use Rattle.class_writer.specs.Refusal.{refusal};
ghost use Rattle.java_names.specs.Paths.{path_of_name as path_of_name_text};
ghost use Rattle.commands.specs.Outcome.{class_file as class_file_of};
ghost use Rattle.commands.specs.Outcome.{below_output as below_output_of, kept_file};
ghost use Rattle.commands.specs.Phases.{limit_code as limit_code_of, limit_diag, refused_as};
ghost use Rattle.commands.specs.Phases.{limits_of, kept_limits, no_path};
ghost use Rattle.commands.specs.Sources.{sourced_limits, sourced_file};
ghost use Rattle.run_ends.specs.OutFiles.{file_seen};

use crate::split::{Source, below_output};
use class_desc::ClassDesc;
use class_writer::{PoolErr, write_class};
use file_contents::diagnostic;
use hdr_core::{Code, Diag, Memory, Text};
use java_names::path_of_name;
use run_ends::OutFile;
use std::alloc::Global;

/// What is written, and the classes that pass a limit. Where there are any, nothing is known of
/// the files.
#[derive(Drop)]
pub struct Written {
    pub files: Vec<OutFile>,
    pub limits: Vec<Diag>,
}

/// The code of a refusal. Want of memory has none.
fn limit_code(refused: PoolErr) -> Option<Code>
    ensures { result ≡ limit_code_of refused }
{
    match refused {
        PoolErr::TextTooLong { length: _ } => Some(Code::L5),
        PoolErr::TooMany { count: _ } => Some(Code::L9),
        PoolErr::PoolFull { needed: _ } => Some(Code::L4),
        PoolErr::Memory => None,
    }
}

/// The path of a class's name. Where there is none, that is told.
fn name_path(
    alloc: Global,
    source: &Source,
    name: &[u8],
    limits: &mut Vec<Diag>,
) -> Result<Option<String>, Memory>
    ensures path { IfOk result (λ path.
        option_map string_bytes path ≡ path_of_name_text name.now) }
    ensures told { OnOk result (limits.new.items ≡ limits.old.items
        ++ no_path source.now.file source.now.path name.now (path_of_name_text name.now)) }
{
    match path_of_name(alloc, name)? {
        Some(path) => Ok(Some(path)),
        None => {
            let path = source.path.as_str();
            limits.push(diagnostic(alloc, source.file, path, 0, Code::L6, name)?)?;
            Ok(None)
        }
    }
}

/// The bytes of a class. Where there are none, the limit that it passes is told.
fn class_bytes(
    alloc: Global,
    source: &Source,
    desc: &ClassDesc,
    limits: &mut Vec<Diag>,
) -> Result<Option<Vec<u8>>, Memory>
    ensures bytes { IfOk result (λ bytes. MatchOption bytes
        (limit_diag source.now.file source.now.path desc.now.name
        (refused_as (refusal desc.now)) ≢ [])
        (λ file. file.items ≡ layout desc.now)) }
    ensures told { OnOk result (limits.new.items ≡ limits.old.items
        ++ limit_diag source.now.file source.now.path desc.now.name
        (refused_as (refusal desc.now))) }
{
    match write_class(alloc, desc) {
        Ok(bytes) => Ok(Some(bytes)),
        Err(refused) => {
            let Some(code) = limit_code(refused) else {
                return Err(Memory);
            };
            let path = source.path.as_str();
            limits.push(diagnostic(alloc, source.file, path, 0, code, desc.name.bytes())?)?;
            Ok(None)
        }
    }
}

/// The file of a class with these bytes.
fn class_file(
    alloc: Global,
    output: &str,
    mut path: String,
    bytes: Vec<u8>,
) -> Result<OutFile, Memory>
    ensures { IfOk result (λ file. file_seen file
        ≡ (below_output_of output.now (string_bytes path ++ codes ".class"), bytes.items)) }
{
    path.push_str(".class")?;
    Ok(OutFile {
        path: below_output(alloc, output, path.as_str())?,
        bytes: Text::from(bytes),
    })
}

/// Writes a class that is kept.
fn write_kept(
    alloc: Global,
    output: &str,
    source: &Source,
    desc: &ClassDesc,
    written: &mut Written,
) -> Result<(), Memory>
    ensures limits { OnOk result (written.new.limits.items ≡ written.old.limits.items
        ++ limits_of source.now.file source.now.path desc.now) }
    ensures files { OnOk result (limits_of source.now.file source.now.path desc.now ≡ [] →
        map file_seen written.new.files.items ≡ map file_seen written.old.files.items
        ++ class_file_of output.now desc.now ∷ []) }
{
    let path = name_path(alloc, source, desc.name.bytes(), &mut written.limits)?;
    let bytes = class_bytes(alloc, source, desc, &mut written.limits)?;
    let Some(path) = path else {
        return Ok(());
    };
    let Some(bytes) = bytes else {
        return Ok(());
    };
    written.files.push(class_file(alloc, output, path, bytes)?)?;
    Ok(())
}

/// Writes what is left of a class, if it is kept.
fn write_class_of(
    alloc: Global,
    output: &str,
    source: &Source,
    class: &Option<ClassDesc>,
    written: &mut Written,
) -> Result<(), Memory>
    ensures limits { OnOk result (written.new.limits.items ≡ written.old.limits.items
        ++ kept_limits source.now.file source.now.path class.now) }
    ensures files { OnOk result (kept_limits source.now.file source.now.path class.now ≡ [] →
        map file_seen written.new.files.items ≡ map file_seen written.old.files.items
        ++ kept_file output.now class.now) }
{
    match class {
        Some(desc) => write_kept(alloc, output, source, desc, written),
        None => Ok(()),
    }
}

/// Writes the classes that are kept, behind the files that are there.
pub fn write_classes(
    alloc: Global,
    output: &str,
    sources: &[Source],
    stripped: &[Option<ClassDesc>],
    files: Vec<OutFile>,
) -> Result<Written, Memory>
    requires { length sources.now ≡ length stripped.now }
    ensures limits { IfOk result (λ written. written.limits.items
        ≡ flat_map sourced_limits (zip sources.now stripped.now)) }
    ensures files { IfOk result (λ written. written.limits.items ≡ [] →
        map file_seen written.files.items ≡ map file_seen files.items
        ++ flat_map (sourced_file output.now) (zip sources.now stripped.now)) }
{
    let mut written = Written {
        files,
        limits: Vec::new(alloc),
    };
    written.files.reserve(stripped.len())?;
    for (index, class) in stripped.iter().enumerate() {
        write_class_of(alloc, output, &sources[index], class, &mut written)?;
    }
    Ok(written)
}
