//! What two bytes, or four, can't hold.
ghost use Rattle.std.specs.Prelude.{◌≡◌, map};
ghost use Rattle.std.specs.List.{flat_map};
ghost use Rattle.class_desc.specs.Layout.{with_its_text, item_needs};
ghost use Rattle.class_writer.specs.Seen.{need_seen, item_seen};
ghost use Rattle.class_writer.specs.Refusal.{checked, first_refusal, text_refusal, need_refusal};
ghost use Rattle.class_writer.specs.Refusal.{above, item_refusal};

use crate::error::PoolErr;
use crate::item::Item;
use crate::need::Need;

/// The greatest number that one byte holds.
const MOST_PARAMETERS: usize = 255;

/// The greatest number that two bytes hold.
const MOST: usize = 65_535;

/// The greatest number that four bytes hold.
const MOST_BYTES: usize = 4_294_967_295;

fn check_text(text: &[u8]) -> Result<(), PoolErr>
    ensures { result ≡ checked (text_refusal text.now) }
{
    let length = text.len();
    if length > MOST {
        return Err(PoolErr::TextTooLong {
            length: length as u64,
        });
    }
    Ok(())
}

fn check_need(need: &Need<'_>) -> Result<(), PoolErr>
    ensures { result ≡ checked (first_refusal need_refusal (with_its_text (need_seen need.now))) }
{
    match need {
        Need::Text(text) => check_text(text),
        Need::Class(name) => check_text(name),
        Need::String(text) => check_text(text),
        Need::Number(_, _) => Ok(()),
    }
}

fn check_text_of(item: &Item<'_>) -> Result<(), PoolErr>
    ensures { result ≡ checked (first_refusal need_refusal (item_needs (item_seen item.now))) }
{
    match item {
        Item::EntryNumber(need) => check_need(need),
        _ => Ok(()),
    }
}

/// That two bytes hold the length of each text, in the order of the file.
pub fn check_texts(items: &[Item<'_>]) -> Result<(), PoolErr>
    ensures { result
        ≡ checked (first_refusal need_refusal (flat_map item_needs (map item_seen items.now))) }
{
    for item in items {
        check_text_of(item)?;
    }
    Ok(())
}

fn check_most(most: usize, count: usize) -> Result<(), PoolErr>
    ensures { result ≡ checked (above most count) }
{
    if count > most {
        return Err(PoolErr::TooMany {
            count: count as u64,
        });
    }
    Ok(())
}

fn check_count(item: &Item<'_>) -> Result<(), PoolErr>
    ensures { result ≡ checked (item_refusal (item_seen item.now)) }
{
    match item {
        Item::ParameterCount(count) => check_most(MOST_PARAMETERS, *count),
        Item::Count(count) => check_most(MOST, *count),
        Item::BodyLength(bytes) => check_most(MOST_BYTES, *bytes),
        _ => Ok(()),
    }
}

/// That its field holds each count and each length, in the order of the file.
pub fn check_counts(items: &[Item<'_>]) -> Result<(), PoolErr>
    ensures { result ≡ checked (first_refusal item_refusal (map item_seen items.now)) }
{
    for item in items {
        check_count(item)?;
    }
    Ok(())
}
