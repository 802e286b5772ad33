//! Reading the constant pool, entry by entry.
ghost use Rattle.std.specs.Prelude.{◌≡◌, map, false};
ghost use Rattle.std.specs.List.{list_all};
ghost use Rattle.java_names.specs.Units.{is_single_byte};
ghost use Rattle.java_names.specs.Units.{is_modified_utf8 as is_modified_utf8_of};
ghost use Rattle.class_desc.specs.Pool.{Utf8, other_fields};
ghost use Rattle.pool_reader.specs.Reading.{Gives};
ghost use Rattle.pool_reader.specs.Pooled.{row_of, as_row, text_entry_at, other_entry_at};
ghost use Rattle.pool_reader.specs.Pooled.{behind_tag, entry_at, row_at, rows_at, pool_at};
ghost use Rattle.pool_reader.specs.Seen.{row_seen};

use crate::fault::{ClassKind, ReadErr};
use crate::pool::{Pool, PoolEntry};
use crate::reader::Reader;
use java_names::is_modified_utf8;
use std::alloc::Global;

/// The least bytes that a number of the pool takes in a file: those of an empty text.
const LEAST_ENTRY: usize = 3;

/// Whether each byte is a unit by itself: ASCII but NUL (JVMS 4.4.7).
fn is_ascii(text: &[u8]) -> bool
    ensures { result ≡ list_all is_single_byte text.now }
{
    text.iter().all(|b| is_single(*b))
}

/// The units U+0001 to U+007F.
fn is_single(b: u8) -> bool
    ensures { result ≡ is_single_byte b }
{
    matches!(b, 0x01..=0x7f)
}

/// Whether the text is modified UTF-8. Most texts are ASCII, which is looked at first.
fn is_well_formed(text: &[u8]) -> bool
    ensures { result ≡ is_modified_utf8_of text.now }
{
    is_ascii(text) || is_modified_utf8(text)
}

fn entry_of_text(text: &[u8]) -> PoolEntry<'_>
    ensures { row_seen result ≡ row_of (Utf8 text.now) }
{
    if is_well_formed(text) {
        PoolEntry::Text(text)
    } else {
        PoolEntry::Malformed
    }
}

impl<'a> Reader<'a> {
    #[tactic(auto, unfolding(crate::specs::Pooled::text_entry_at))]
    fn text_entry(&mut self) -> Result<PoolEntry<'a>, ReadErr>
        ensures { Gives row_seen result self.new (as_row (text_entry_at self.old)) }
    {
        let count = self.u16()?;
        let text = self.piece(usize::from(count))?;
        Ok(entry_of_text(text))
    }

    /// An entry of which nothing is kept, by the fields of its tag (JVMS 4.4).
    #[tactic(auto, unfolding(crate::specs::Pooled::fields_at))]
    fn other_entry(&mut self, tag: u8, tag_at: u32) -> Result<PoolEntry<'a>, ReadErr>
        ensures { Gives row_seen result self.new
            (as_row (other_entry_at tag (other_fields tag) tag_at self.old)) }
    {
        match tag {
            9 | 10 | 11 | 12 | 17 | 18 => {
                self.piece(2)?;
                self.piece(2)?;
            }
            15 => {
                self.piece(1)?;
                self.piece(2)?;
            }
            16 | 19 | 20 => {
                self.piece(2)?;
            }
            _ => return Err(ClassKind::F4.at(tag_at)),
        }
        Ok(PoolEntry::Unread)
    }

    /// What stands behind a tag. As many numbers as `behind` are left behind the entry's first.
    #[tactic(auto, unfolding(crate::specs::Pooled::behind_tag))]
    fn behind_tag(&mut self, behind: u16, tag: u8, tag_at: u32) -> Result<PoolEntry<'a>, ReadErr>
        ensures { Gives row_seen result self.new
            (as_row (behind_tag behind tag tag_at self.old)) }
    {
        match tag {
            1 => self.text_entry(),
            3 => Ok(PoolEntry::Integer(self.u32()?)),
            4 => Ok(PoolEntry::Float(self.u32()?)),
            5 | 6 if behind == 0 => Err(ClassKind::F5.at(tag_at)),
            5 => Ok(PoolEntry::Long(self.u64()?)),
            6 => Ok(PoolEntry::Double(self.u64()?)),
            7 => Ok(PoolEntry::Class(self.u16()?)),
            8 => Ok(PoolEntry::Str(self.u16()?)),
            _ => self.other_entry(tag, tag_at),
        }
    }

    #[tactic(auto, unfolding(crate::specs::Pooled::entry_at))]
    fn entry(&mut self, behind: u16) -> Result<PoolEntry<'a>, ReadErr>
        ensures { Gives row_seen result self.new (as_row (entry_at behind self.old)) }
    {
        let tag_at = self.offset();
        let tag = self.u8()?;
        self.behind_tag(behind, tag, tag_at)
    }

    /// What a number stands for. Nothing is read for the second one of an entry.
    #[tactic(auto, unfolding(crate::specs::Pooled::row_at))]
    fn row(&mut self, is_second: bool, behind: u16) -> Result<PoolEntry<'a>, ReadErr>
        ensures { Gives row_seen result self.new (row_at is_second behind self.old) }
    {
        if is_second {
            Ok(PoolEntry::Unread)
        } else {
            self.entry(behind)
        }
    }

    /// What as many numbers stand for.
    fn rows(&mut self, alloc: Global, count: u16) -> Result<Vec<PoolEntry<'a>>, ReadErr>
        ensures { Gives (λ entries. map row_seen entries.items) result self.new
            (rows_at false count self.old) }
    {
        let most = self.len() / LEAST_ENTRY;
        let mut entries = Vec::with_capacity(alloc, usize::from(count).min(most))?;
        let mut is_second = false;
        for done in 0..count {
            let entry = self.row(is_second, count - 1 - done)?;
            is_second = entry.is_wide();
            entries.push(entry)?;
        }
        Ok(entries)
    }

    /// The constant pool, its count first.
    #[tactic(auto, unfolding(crate::specs::Pooled::pool_at))]
    pub fn pool(&mut self, alloc: Global) -> Result<Pool<'a>, ReadErr>
        ensures { Gives (λ pool. pool) result self.new (pool_at self.old) }
    {
        let at = self.offset();
        let count = self.u16()?;
        if count == 0 {
            return Err(ClassKind::F5.at(at));
        }
        let entries = self.rows(alloc, count - 1)?;
        Ok(Pool::of(entries))
    }
}
