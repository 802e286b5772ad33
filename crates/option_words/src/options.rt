//! Options with their values.
ghost use Rattle.std.specs.Prelude.{◌≡◌, ◌<◌, length, map, string_bytes, IfOk, IfSome};
ghost use Rattle.std.specs.Prelude.{option_map};
ghost use Rattle.option_words.specs.Lists.{at_most_one};
ghost use Rattle.option_words.specs.Options.{is_value as is_value_of, options, values};
ghost use Rattle.option_words.specs.Seen.{all_given, maybe_given_seen, texts, text_seen};
ghost use Rattle.option_words.specs.Seen.{option_seen, first_option as first_option_of};

use hdr_core::Memory;
use std::alloc::Global;

/// An option with its value.
#[derive(Clone, Copy)]
pub struct Given<'a> {
    pub option: &'a str,
    pub value: &'a str,
}

/// What may stand behind an option.
fn is_value(word: &str) -> bool
    ensures { result ≡ is_value_of word.now }
{
    match word.as_bytes() {
        [] => false,
        [first, ..] => *first != b'-',
    }
}

/// The first option, and the words behind it and its value.
fn first_option(words: &[String]) -> Option<(Given<'_>, &[String])>
    ensures words { option_seen result ≡ first_option_of (map string_bytes words.now) }
    ensures shorter { IfSome result (λ o. length o.1.now < length words.now) }
{
    match words {
        [option, value, more @ ..] => Some((
            Given {
                option: option.as_str(),
                value: value.as_str(),
            },
            more,
        )),
        _ => None,
    }
}

/// The options that words are: none where one has no value.
pub fn options_of<'a>(alloc: Global, words: &'a [String]) -> Result<Option<Vec<Given<'a>>>, Memory>
    ensures { IfOk result (λ given.
        maybe_given_seen given ≡ options (map string_bytes words.now)) }
{
    let mut given = Vec::new(alloc);
    let mut rest = words;
    while let Some((option, more)) = first_option(rest) {
        if !is_value(option.value) {
            return Ok(None);
        }
        given.push(option)?;
        rest = more;
    }
    Ok(if rest.is_empty() { Some(given) } else { None })
}

/// The values of an option, in their order.
pub fn values_of<'a>(
    alloc: Global,
    given: &[Given<'a>],
    option: &[u8],
) -> Result<Vec<&'a str>, Memory>
    ensures { IfOk result (λ found.
        texts found.items ≡ values option.now (all_given given.now)) }
{
    let mut found = Vec::new(alloc);
    for one in given {
        if one.option.as_bytes() == option {
            found.push(one.value)?;
        }
    }
    Ok(found)
}

/// The value of an option that is given at most once: none where it is given more often.
pub fn sole_value<'a>(
    alloc: Global,
    given: &[Given<'a>],
    option: &[u8],
) -> Result<Option<Option<&'a str>>, Memory>
    ensures { IfOk result (λ sole. option_map text_seen sole
        ≡ at_most_one (values option.now (all_given given.now))) }
{
    let values = values_of(alloc, given, option)?;
    Ok(match values.as_slice() {
        [] => Some(None),
        [value] => Some(Some(*value)),
        _ => None,
    })
}
