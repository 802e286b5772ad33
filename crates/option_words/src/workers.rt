//! The number of workers.
ghost use Rattle.std.specs.Prelude.{◌≡◌, IfOk};
ghost use Rattle.option_words.specs.Seen.{all_given};
ghost use Rattle.option_words.specs.Workers.{is_worker_count as is_worker_count_of};
ghost use Rattle.option_words.specs.Workers.{are_workers as are_workers_of};

use crate::options::{Given, sole_value};
use hdr_core::Memory;
use std::alloc::Global;

/// The option of the number of workers, which each command has.
pub const WORKERS: &[u8] = b"--workers";

/// A number from 1 to 64 in decimal digits, without a zero in front.
fn is_worker_count(word: &[u8]) -> bool
    ensures { result ≡ is_worker_count_of word.now }
{
    match word {
        [b'1'..=b'9'] => true,
        [tens @ b'1'..=b'9', ones @ b'0'..=b'9'] => 10 * (*tens - b'0') + (*ones - b'0') <= 64,
        _ => false,
    }
}

/// Whether a number of workers is given at most once, and is one.
pub fn are_workers(alloc: Global, given: &[Given<'_>]) -> Result<bool, Memory>
    ensures { IfOk result (λ right. right ≡ are_workers_of (all_given given.now)) }
{
    Ok(match sole_value(alloc, given, WORKERS)? {
        Some(Some(count)) => is_worker_count(count.as_bytes()),
        Some(None) => true,
        None => false,
    })
}
