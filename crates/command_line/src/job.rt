ghost use Rattle.std.specs.Prelude.{◌≡◌, map, option_map, string_bytes, find, IfOk};
ghost use Rattle.std.specs.List.{list_all};
ghost use Rattle.option_words.specs.Seen.{all_given, text_seen};
ghost use Rattle.questions.specs.Asking.{ask};
ghost use Rattle.command_line.specs.Words.{Asks, is_archive, is_ijar_option as is_ijar_option_of};
ghost use Rattle.command_line.specs.Words.{are_right_options, output_by, ijar_by};
ghost use Rattle.command_line.specs.Words.{ijar as ijar_words, named, command as command_of, job};
ghost use Rattle.command_line.specs.Seen.{job_seen, maybe_command_seen};

use hdr_core::Memory;
use option_words::{Given, WORKERS, are_workers, options_of, path_value, paths_given, values_of};
use questions::{Ask, ask_of};
use std::alloc::Global;

/// Why words are no job.
#[derive(Clone, Copy, PartialEq, Eq)]
pub enum Refusal<'a> {
    /// This word names an archive: archives are not read.
    Archive(&'a str),
    /// They ask for nothing that is known.
    Help,
}

/// What there is to do.
#[derive(Drop)]
pub enum Command<'a> {
    /// Strip the class files under these roots, in their order, into an output folder.
    Ijar {
        inputs: Vec<&'a str>,
        output: &'a str,
    },
    /// Answer questions about the class files under some roots.
    Ask(Ask<'a>),
}

/// What the words ask for.
#[derive(Drop)]
pub enum Job<'a> {
    /// Nothing: a line is told.
    Refused(Refusal<'a>),
    Doing(Command<'a>),
}

/// Whether the word names an archive, by its ending.
fn names_archive(word: &[u8]) -> bool
    ensures { result ≡ is_archive word.now }
{
    word.ends_with(b".jar") || word.ends_with(b".zip") || word.ends_with(b".jmod")
}

fn first_archive(words: &[String]) -> Option<&str>
    ensures { text_seen result ≡ find is_archive (map string_bytes words.now) }
{
    for word in words {
        if names_archive(word.as_bytes()) {
            return Some(word.as_str());
        }
    }
    None
}

/// The word of the command that strips.
pub const IJAR: &[u8] = b"ijar";

/// Its option of the roots.
pub const INPUT: &[u8] = b"--input";

/// Its option of the output folder.
pub const OUTPUT: &[u8] = b"--output";

fn is_ijar_option(option: &[u8]) -> bool
    ensures { result ≡ is_ijar_option_of option.now }
{
    option == INPUT || option == OUTPUT || option == WORKERS
}

fn are_ijar_options(given: &[Given<'_>]) -> bool
    ensures { result ≡ list_all (λ o. is_ijar_option_of o.0) (all_given given.now) }
{
    for one in given {
        if !is_ijar_option(one.option.as_bytes()) {
            return false;
        }
    }
    true
}

/// Whether no other option is given, and the number of workers as it may be.
fn are_right(alloc: Global, given: &[Given<'_>]) -> Result<bool, Memory>
    ensures { IfOk result (λ right. right ≡ are_right_options (all_given given.now)) }
{
    Ok(are_ijar_options(given) && are_workers(alloc, given)?)
}

/// The output folder, which is given once.
fn output<'a>(alloc: Global, given: &[Given<'a>]) -> Result<Option<&'a str>, Memory>
    ensures { IfOk result (λ path. text_seen path ≡ output_by (all_given given.now)) }
{
    let outputs = values_of(alloc, given, OUTPUT)?;
    Ok(match outputs.as_slice() {
        [output] => path_value(output),
        _ => None,
    })
}

/// What right options ask for: none where one is missing, is given too often, or is no path.
fn stripping<'a>(alloc: Global, given: &[Given<'a>]) -> Result<Option<Command<'a>>, Memory>
    ensures { IfOk result (λ command.
        maybe_command_seen command ≡ ijar_by (all_given given.now)) }
{
    let Some(inputs) = paths_given(alloc, given, INPUT)? else {
        return Ok(None);
    };
    let Some(output) = output(alloc, given)? else {
        return Ok(None);
    };
    Ok(Some(Command::Ijar { inputs, output }))
}

fn ijar(alloc: Global, words: &[String]) -> Result<Option<Command<'_>>, Memory>
    ensures { IfOk result (λ command.
        maybe_command_seen command ≡ ijar_words (map string_bytes words.now)) }
{
    let Some(given) = options_of(alloc, words)? else {
        return Ok(None);
    };
    if are_right(alloc, &given)? {
        stripping(alloc, &given)
    } else {
        Ok(None)
    }
}

/// The word of the command that answers questions.
pub const ASK: &[u8] = b"ask";

fn asking(alloc: Global, words: &[String]) -> Result<Option<Command<'_>>, Memory>
    ensures { IfOk result (λ command.
        maybe_command_seen command ≡ option_map Asks (ask (map string_bytes words.now))) }
{
    Ok(match ask_of(alloc, words)? {
        Some(ask) => Some(Command::Ask(ask)),
        None => None,
    })
}

/// The command of a name, from the words behind it.
fn command_by_name<'a>(
    alloc: Global,
    name: &[u8],
    words: &'a [String],
) -> Result<Option<Command<'a>>, Memory>
    ensures { IfOk result (λ command.
        maybe_command_seen command ≡ named name.now (map string_bytes words.now)) }
{
    if name == IJAR {
        ijar(alloc, words)
    } else if name == ASK {
        asking(alloc, words)
    } else {
        Ok(None)
    }
}

/// The first word is the name of the command.
fn named_command(alloc: Global, words: &[String]) -> Result<Option<Command<'_>>, Memory>
    ensures { IfOk result (λ command.
        maybe_command_seen command ≡ command_of (map string_bytes words.now)) }
{
    match words {
        [name, more @ ..] => command_by_name(alloc, name.as_bytes(), more),
        [] => Ok(None),
    }
}

/// The job of the words, which stand behind the program's name.
pub fn job_of(alloc: Global, words: &[String]) -> Result<Job<'_>, Memory>
    ensures { IfOk result (λ read. job_seen read ≡ job (map string_bytes words.now)) }
{
    if let Some(word) = first_archive(words) {
        return Ok(Job::Refused(Refusal::Archive(word)));
    }
    Ok(match named_command(alloc, words)? {
        Some(command) => Job::Doing(command),
        None => Job::Refused(Refusal::Help),
    })
}
