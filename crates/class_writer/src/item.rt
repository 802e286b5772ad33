//! What stands behind the pool, item by item.
ghost use Rattle.std.specs.Prelude.{◌≡◌};
ghost use Rattle.class_desc.specs.Layout.{item_size};
ghost use Rattle.class_writer.specs.Seen.{item_seen};

use crate::need::Need;

/// A field of the class file behind the pool (JVMS 4.1, 4.7).
#[derive(Clone, Copy)]
pub enum Item<'a> {
    /// The tag of an element's value, in one byte (JVMS 4.7.16.1).
    Tag(u8),
    /// In two bytes.
    Flags(u16),
    /// The number of parameters, in one byte (JVMS 4.7.18, 4.7.19, 4.7.24).
    ParameterCount(usize),
    /// The length of another list, in two bytes.
    Count(usize),
    /// The length of an attribute's body, in four bytes.
    BodyLength(usize),
    /// The number of an entry, in two bytes.
    EntryNumber(Need<'a>),
    /// The number 0, in place of that of an entry.
    NoEntry,
}

impl<'a> Item<'a> {
    /// How many bytes it has.
    pub fn size(&self) -> usize
        ensures { result ≡ item_size (item_seen self.now) }
    {
        match self {
            Item::Tag(_) => 1,
            Item::Flags(_) => 2,
            Item::ParameterCount(_) => 1,
            Item::Count(_) => 2,
            Item::BodyLength(_) => 4,
            Item::EntryNumber(_) => 2,
            Item::NoEntry => 2,
        }
    }
}
