//! Paths as values.
ghost use Rattle.std.specs.Prelude.{◌≡◌, IfOk};
ghost use Rattle.option_words.specs.Paths.{trimmed as trimmed_of, path_of, paths_of, paths_by};
ghost use Rattle.option_words.specs.Seen.{all_given, texts, text_seen, maybe_texts_seen};

use crate::options::{Given, values_of};
use hdr_core::Memory;
use std::alloc::Global;

/// A path without the `/` at its end.
fn trimmed(path: &str) -> &str
    ensures { result.now ≡ trimmed_of path.now }
{
    path.trim_end_matches('/')
}

/// The path that a value gives: none where nothing stands before its `/`.
pub fn path_value(value: &str) -> Option<&str>
    ensures { text_seen result ≡ path_of value.now }
{
    let path = trimmed(value);
    if path.is_empty() { None } else { Some(path) }
}

/// The paths that values give: none where one of the values gives none.
fn path_values<'a>(alloc: Global, values: &[&'a str]) -> Result<Option<Vec<&'a str>>, Memory>
    ensures { IfOk result (λ paths. maybe_texts_seen paths ≡ paths_of (texts values.now)) }
{
    let mut paths = Vec::with_capacity(alloc, values.len())?;
    for value in values {
        match path_value(value) {
            Some(path) => paths.push(path)?,
            None => return Ok(None),
        }
    }
    Ok(Some(paths))
}

/// The paths that an option gives, in their order: none where it isn't given, or where one of its
/// values gives none.
pub fn paths_given<'a>(
    alloc: Global,
    given: &[Given<'a>],
    option: &[u8],
) -> Result<Option<Vec<&'a str>>, Memory>
    ensures { IfOk result (λ paths.
        maybe_texts_seen paths ≡ paths_by option.now (all_given given.now)) }
{
    let values = values_of(alloc, given, option)?;
    let Some(paths) = path_values(alloc, &values)? else {
        return Ok(None);
    };
    Ok(if paths.is_empty() { None } else { Some(paths) })
}
