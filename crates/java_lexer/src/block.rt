//! Text blocks (JLS 3.10.6).
ghost use Rattle.std.specs.Prelude.{◌≡◌, ◌<◌, ◌≤◌, ◌+◌, ◌-◌, ◌++◌, IfOk, OnOk, length, take};
ghost use Rattle.std.specs.Prelude.{drop};
ghost use Rattle.std.specs.List.{position_or_len, before_first, after_first};
ghost use Rattle.java_names.specs.ModifiedUtf8.{modified_utf8 as modified};
ghost use Rattle.java_lexer.specs.LineTerminators as terminators;
ghost use Rattle.java_lexer.specs.Blocks as spec;

use crate::escape::unescape;
use crate::units::at;
use hdr_core::{Memory, Text};
use java_names::modified_utf8;
use java_text::{CARRIAGE_RETURN, LINE_FEED, is_white};
use std::alloc::Global;

/// The text that a text block stands for.
pub fn block_text(alloc: Global, units: &[u16]) -> Result<Text, Memory>
    ensures { IfOk result (λ text. text ≡ modified (spec.block_units units.now)) }
{
    let normal = normalize(alloc, units)?;
    let content = without_quotes(behind_line(normal.as_slice()));
    let stripped = strip(alloc, content, margin(content))?;
    let plain = unescape(alloc, stripped.as_slice())?;
    modified_utf8(alloc, plain.as_slice())
}

/// The units with each line terminator normalized to a line feed.
fn normalize(alloc: Global, units: &[u16]) -> Result<Vec<u16>, Memory>
    ensures { IfOk result (λ normal. normal.items ≡ terminators.normalized units.now) }
{
    let mut normal = Vec::with_capacity(alloc, units.len())?;
    for index in 0..units.len() {
        push_normalized(&mut normal, units, index)?;
    }
    Ok(normal)
}

/// Pushes the unit at a place, unless it is the CR of a CR LF.
fn push_normalized(normal: &mut Vec<u16>, units: &[u16], index: usize) -> Result<(), Memory>
    requires { index < length units.now }
    ensures { OnOk result
        (normal.new.items ++ terminators.normalized (drop (index + 1) units.now)
        ≡ normal.old.items ++ terminators.normalized (drop index units.now)) }
{
    if is_pair_at(units, index) {
        return Ok(());
    }
    normal.push(without_return(units[index]))?;
    Ok(())
}

/// CR LF stands at a place.
fn is_pair_at(units: &[u16], index: usize) -> bool
    requires { index < length units.now }
    ensures { result ≡ terminators.begins_with_pair (drop index units.now) }
{
    units[index] == CARRIAGE_RETURN && at(units, index + 1) == LINE_FEED
}

fn without_return(unit: u16) -> u16
    ensures { result ≡ terminators.without_return unit }
{
    if unit == CARRIAGE_RETURN {
        LINE_FEED
    } else {
        unit
    }
}

/// What stands behind the first line feed.
fn behind_line(units: &[u16]) -> &[u16]
    ensures { result.now ≡ after_first terminators.is_line_feed units.now }
{
    let length = line_length(units);
    if length < units.len() {
        &units[length + 1..]
    } else {
        &units[..0]
    }
}

/// Without the closing quotation marks.
fn without_quotes(inner: &[u16]) -> &[u16]
    ensures { result.now ≡ take (length inner.now - 3) inner.now }
{
    &inner[..inner.len().saturating_sub(3)]
}

/// The line that begins at a place.
fn line_at(content: &[u16], at: usize) -> &[u16]
    requires { at ≤ length content.now }
    ensures line { result.now ≡ before_first terminators.is_line_feed (drop at content.now) }
    ensures length { length result.now
        ≡ position_or_len terminators.is_line_feed (drop at content.now) }
    ensures within { at + length result.now ≤ length content.now }
{
    let rest = &content[at..];
    &rest[..line_length(rest)]
}

/// How many units the first line has.
fn line_length(units: &[u16]) -> usize
    ensures value { result ≡ position_or_len terminators.is_line_feed units.now }
    ensures within { result ≤ length units.now }
{
    units.iter().take_while(|unit| **unit != LINE_FEED).count()
}

fn last_line(content: &[u16]) -> &[u16]
    ensures { result.now ≡ spec.last_line content.now }
{
    let length = content
        .iter()
        .rev()
        .take_while(|unit| **unit != LINE_FEED)
        .count();
    &content[content.len() - length..]
}

fn is_blank(line: &[u16]) -> bool
    ensures { result ≡ spec.is_blank line.now }
{
    line.iter().all(|unit| is_white(*unit))
}

fn indentation(line: &[u16]) -> usize
    ensures { result ≡ spec.indentation line.now }
{
    line.iter().take_while(|unit| is_white(**unit)).count()
}

/// The least indentation of the lines that count.
fn margin(content: &[u16]) -> usize
    ensures { result ≡ spec.margin content.now }
{
    content
        .split(|unit| *unit == LINE_FEED)
        .filter(|line| !is_blank(line))
        .map(|line| indentation(line))
        .fold(indentation(last_line(content)), |least, width| {
            least.min(width)
        })
}

/// The lines without their margin and their trailing white space.
fn strip(alloc: Global, content: &[u16], width: usize) -> Result<Vec<u16>, Memory>
    ensures { IfOk result (λ stripped. stripped.items ≡ spec.stripped width content.now) }
{
    let mut stripped = Vec::with_capacity(alloc, content.len())?;
    let mut at = 0;
    'lines: loop {
        let line = line_at(content, at);
        let end = at + line.len();
        stripped.extend_from_slice(kept(line, width))?;
        if end == content.len() {
            return Ok(stripped);
        }
        stripped.push(LINE_FEED)?;
        at = end + 1;
    }
}

/// The line without its margin and its trailing white space.
fn kept(line: &[u16], width: usize) -> &[u16]
    ensures { result.now ≡ spec.kept width line.now }
{
    if width <= line.len() {
        trim(&line[width..])
    } else {
        &line[..0]
    }
}

/// The line without the white space at its end.
fn trim(line: &[u16]) -> &[u16]
    ensures { result.now ≡ spec.trimmed line.now }
{
    let white = line
        .iter()
        .rev()
        .take_while(|unit| is_white(**unit))
        .count();
    &line[..line.len() - white]
}
