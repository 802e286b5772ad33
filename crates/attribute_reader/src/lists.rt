//! Lists of items behind their count.
ghost use Rattle.std.specs.Prelude.{◌≡◌};
ghost use Rattle.pool_reader.specs.Reading.{Gives, times};
ghost use Rattle.attribute_reader.specs.Items.{class_at, counted_at, for_parameters_at};

use crate::forms::class_name;
use hdr_core::{List, Text};
use pool_reader::{Pool, ReadErr, Reader};
use std::alloc::Global;

/// The least bytes of an item of a list: a number.
const LEAST_ITEM: usize = 2;

/// What a reader over a pool reads, wherever it stands.
pub trait FromReader: Drop {
    ghost use Rattle.std.specs.Prelude.{List};
    ghost use Rattle.pool_reader.specs.Reading.{Position, Read};
    ghost use Rattle.pool_reader.specs.Pooled.{Row};

    ghost read_at: { List Row → Position → Read Self };

    fn read(reader: &mut Reader<'_>, alloc: Global, pool: &Pool<'_>) -> Result<Self, ReadErr>
        ensures { Gives (λ item. item) result reader.new (read_at pool.now reader.old) };
}

/// As many items as that.
fn several<T: FromReader>(
    reader: &mut Reader<'_>,
    alloc: Global,
    pool: &Pool<'_>,
    count: u16,
) -> Result<List<T>, ReadErr>
    ensures { Gives (λ items. items) result reader.new
        (times (T.read_at pool.now) count reader.old) }
{
    let most = reader.len() / LEAST_ITEM;
    let mut items = Vec::with_capacity(alloc, usize::from(count).min(most))?;
    for _ in 0..count {
        let next = T::read(reader, alloc, pool)?;
        items.push(next)?;
    }
    Ok(List::of(items))
}

/// Items behind their count.
#[tactic(auto, unfolding(crate::specs::Items::counted_at))]
pub fn counted<T: FromReader>(
    reader: &mut Reader<'_>,
    alloc: Global,
    pool: &Pool<'_>,
) -> Result<List<T>, ReadErr>
    ensures { Gives (λ items. items) result reader.new
        (counted_at (T.read_at pool.now) reader.old) }
{
    let count = reader.u16()?;
    several(reader, alloc, pool, count)
}

/// Items, one for each parameter, behind their count.
#[tactic(auto, unfolding(crate::specs::Items::for_parameters_at))]
pub fn for_parameters<T: FromReader>(
    reader: &mut Reader<'_>,
    alloc: Global,
    pool: &Pool<'_>,
) -> Result<List<T>, ReadErr>
    ensures { Gives (λ items. items) result reader.new
        (for_parameters_at (T.read_at pool.now) reader.old) }
{
    let count = reader.u8()?;
    several(reader, alloc, pool, u16::from(count))
}

fn names(
    reader: &mut Reader<'_>,
    alloc: Global,
    pool: &Pool<'_>,
    count: u16,
) -> Result<List<Text>, ReadErr>
    ensures { Gives (λ names. names) result reader.new
        (times (class_at pool.now) count reader.old) }
{
    let most = reader.len() / LEAST_ITEM;
    let mut names = Vec::with_capacity(alloc, usize::from(count).min(most))?;
    for _ in 0..count {
        let name = class_name(reader, pool)?;
        names.push(Text::of(alloc, name)?)?;
    }
    Ok(List::of(names))
}

/// The names of classes, behind their count.
#[tactic(auto, unfolding(crate::specs::Items::counted_at))]
pub fn class_names(
    reader: &mut Reader<'_>,
    alloc: Global,
    pool: &Pool<'_>,
) -> Result<List<Text>, ReadErr>
    ensures { Gives (λ names. names) result reader.new
        (counted_at (class_at pool.now) reader.old) }
{
    let count = reader.u16()?;
    names(reader, alloc, pool, count)
}
