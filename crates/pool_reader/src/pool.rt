ghost use Rattle.std.specs.Prelude.{◌≡◌, map};
ghost use Rattle.std.specs.Option.{option_map};
ghost use Rattle.pool_reader.specs.Pooled.{row_in, text_named, class_named, is_wide_row};
ghost use Rattle.pool_reader.specs.Seen.{row_seen, text_seen};

use crate::fault::ClassKind;
use std::marker::Model;

/// What a number of the constant pool stands for (JVMS 4.4), in the bytes of the file.
#[derive(Clone, Copy)]
pub enum PoolEntry<'a> {
    /// A text in modified UTF-8.
    Text(&'a [u8]),
    /// A CONSTANT_Utf8 of other bytes.
    Malformed,
    Integer(u32),
    /// The bits of a float.
    Float(u32),
    Long(u64),
    /// The bits of a double.
    Double(u64),
    /// The number of the class's name.
    Class(u16),
    /// The number of the string's text.
    Str(u16),
    /// An entry that nothing kept may name, or the second number of a Long or Double.
    Unread,
}

impl<'a> PoolEntry<'a> {
    /// Whether the next number is the second one of this entry (JVMS 4.4.5).
    pub fn is_wide(&self) -> bool
        ensures { result ≡ is_wide_row (row_seen self.now) }
    {
        matches!(self, PoolEntry::Long(_) | PoolEntry::Double(_))
    }
}

/// A constant pool, by its numbers.
#[derive(Drop)]
pub struct Pool<'a> {
    entries: Vec<PoolEntry<'a>>,
}

impl<'a> Model for Pool<'a> {
    ghost use Rattle.std.specs.Prelude.{List, map};
    ghost use Rattle.pool_reader.specs.Pooled.{Row};
    ghost use Rattle.pool_reader.specs.Seen.{row_seen};

    ghost Value = { List Row };

    ghost view = { λ pool. map row_seen pool.entries.items };
}

impl<'a> Pool<'a> {
    pub(crate) fn of(entries: Vec<PoolEntry<'a>>) -> Pool<'a>
        ensures { result ≡ map row_seen entries.entry.items }
    {
        Pool { entries }
    }

    /// What stands at this number: they count from 1.
    pub fn entry(&self, number: u16) -> Option<PoolEntry<'a>>
        ensures { option_map row_seen result ≡ row_in self.now number }
    {
        let at = usize::from(number).checked_sub(1)?;
        self.entries.get(at).copied()
    }

    /// The text of this number: F5 where it is none, F6 where it is no modified UTF-8.
    pub fn text(&self, number: u16) -> Result<&'a [u8], ClassKind>
        ensures { text_seen result ≡ text_named self.now number }
    {
        match self.entry(number) {
            Some(PoolEntry::Text(text)) => Ok(text),
            Some(PoolEntry::Malformed) => Err(ClassKind::F6),
            _ => Err(ClassKind::F5),
        }
    }

    /// The name of the class of this number: F5 where it is none, F6 where its name is no modified
    /// UTF-8.
    pub fn class(&self, number: u16) -> Result<&'a [u8], ClassKind>
        ensures { text_seen result ≡ class_named self.now number }
    {
        match self.entry(number) {
            Some(PoolEntry::Class(name)) => self.text(name),
            _ => Err(ClassKind::F5),
        }
    }
}
