ghost use Rattle.std.specs.Prelude.{◌≡◌, [], ◌∷◌, ◌++◌, OnOk, IfOk, length, map};
ghost use Rattle.std.specs.Int.{w32, w64, to_be_bytes};
ghost use Rattle.class_desc.specs.Layout.{TextNeed, ClassNeed, StringNeed, NumberNeed};
ghost use Rattle.class_desc.specs.Layout.{bits_bytes, number_tag};
ghost use Rattle.class_writer.specs.Slots.{Held, need_slots};
ghost use Rattle.class_writer.specs.Seen.{kind_seen, need_seen, slot_seen, item_seen};
ghost use Rattle.class_writer.specs.Writing.{Writes, Takes, FindsSlot, IsNumberOf, file_of_draft};
ghost use Rattle.class_writer.specs.Refusal.{checked, pool_refusal};

use crate::big_endian::{put_u8, put_u16, put_u32};
use crate::error::PoolErr;
use crate::item::Item;
use crate::need::{Need, NumberKind, Slot};
use hdr_core::Memory;
use indexmap::IndexSet;
use std::alloc::Global;
use std::marker::Model;

/// The tags of the pool (JVMS table 4.4-A).
const UTF8: u8 = 1;

const INTEGER: u8 = 3;

const FLOAT: u8 = 4;

const LONG: u8 = 5;

const DOUBLE: u8 = 6;

const CLASS: u8 = 7;

const STRING: u8 = 8;

const MAGIC: u32 = 0xcafe_babe;

/// How many bytes stand before the pool, with its count.
const HEAD: usize = 10;

/// The most numbers that a pool has: its count is one more.
const MOST_NUMBERS: usize = 65_534;

/// How many bytes of entries there is room for at first: those of a plain class.
const ROOM_OF_ENTRIES: usize = 1_024;

/// A class file in the making: the pool by its numbers, its bytes, and what stands behind it.
///
/// A number above 65,535 is written by its low 16 bits: the pool is refused in the end.
#[derive(Drop)]
pub struct ClassWriter<'a> {
    slots: IndexSet<Slot<'a>>,
    entries: Vec<u8>,
    body: Vec<u8>,
}

impl<'a> Model for ClassWriter<'a> {
    ghost use Rattle.std.specs.Prelude.{map};
    ghost use Rattle.class_writer.specs.Seen.{slot_seen};
    ghost use Rattle.class_writer.specs.Writing.{Draft};

    ghost Value = { Draft };

    ghost view = { λ writer. record {
      pool = map slot_seen writer.slots.keys;
      entries = writer.entries.items;
      body = writer.body.items;
    } };
}

impl<'a> ClassWriter<'a> {
    /// With room for as many numbers, and for what stands behind the pool, which has this size.
    pub fn new(alloc: Global, numbers: usize, size: usize) -> Result<ClassWriter<'a>, Memory>
        ensures { IfOk result (λ writer. writer ≡ record { pool = []; entries = []; body = [] }) }
    {
        Ok(ClassWriter {
            slots: IndexSet::with_capacity(alloc, numbers)?,
            entries: Vec::with_capacity(alloc, ROOM_OF_ENTRIES)?,
            body: Vec::with_capacity(alloc, size)?,
        })
    }

    /// The number of what is at a number of the pool, the next one where it isn't there yet, and
    /// whether it is new.
    fn find(&mut self, slot: Slot<'a>) -> Result<(usize, bool), Memory>
        ensures { IfOk result
            (λ found. FindsSlot (slot_seen slot.entry) found.0 found.1 self.old self.new) }
    {
        let (index, is_new) = self.slots.insert_full(slot)?;
        prove!(index < self.slots.len());
        Ok((index + 1, is_new))
    }

    fn text(&mut self, text: &'a [u8]) -> Result<usize, Memory>
        ensures takes { OnOk result (Takes (need_slots (TextNeed text.now)) self.old self.new) }
        ensures number { IfOk result (IsNumberOf (TextNeed text.now) self.new) }
    {
        let (number, is_new) = self.find(Slot::Held(Need::Text(text)))?;
        if is_new {
            self.entries.push(UTF8)?;
            put_u16(&mut self.entries, text.len())?;
            self.entries.extend_from_slice(text)?;
        }
        Ok(number)
    }

    /// Right behind its name, where that is new.
    fn class(&mut self, name: &'a [u8]) -> Result<usize, Memory>
        ensures takes { OnOk result (Takes (need_slots (ClassNeed name.now)) self.old self.new) }
        ensures number { IfOk result (IsNumberOf (ClassNeed name.now) self.new) }
    {
        let text = self.text(name)?;
        let (number, is_new) = self.find(Slot::Held(Need::Class(name)))?;
        if is_new {
            self.entries.push(CLASS)?;
            put_u16(&mut self.entries, text)?;
        }
        Ok(number)
    }

    /// Right behind its text, where that is new.
    fn string(&mut self, text: &'a [u8]) -> Result<usize, Memory>
        ensures takes { OnOk result (Takes (need_slots (StringNeed text.now)) self.old self.new) }
        ensures number { IfOk result (IsNumberOf (StringNeed text.now) self.new) }
    {
        let text_number = self.text(text)?;
        let (number, is_new) = self.find(Slot::Held(Need::String(text)))?;
        if is_new {
            self.entries.push(STRING)?;
            put_u16(&mut self.entries, text_number)?;
        }
        Ok(number)
    }

    fn number_alone(&mut self, kind: NumberKind, bits: u64) -> Result<usize, Memory>
        ensures takes { OnOk result
            (Takes (Held (NumberNeed (kind_seen kind) bits) ∷ []) self.old self.new) }
        ensures number { IfOk result (IsNumberOf (NumberNeed (kind_seen kind) bits) self.new) }
    {
        let (number, is_new) = self.find(Slot::Held(Need::Number(kind, bits)))?;
        if is_new {
            put_number(&mut self.entries, kind, bits)?;
        }
        Ok(number)
    }

    /// A long and a double take the number behind theirs too (JVMS 4.4.5).
    fn number(&mut self, kind: NumberKind, bits: u64) -> Result<usize, Memory>
        ensures takes { OnOk result
            (Takes (need_slots (NumberNeed (kind_seen kind) bits)) self.old self.new) }
        ensures number { IfOk result (IsNumberOf (NumberNeed (kind_seen kind) bits) self.new) }
    {
        let number = self.number_alone(kind, bits)?;
        match kind {
            NumberKind::Integer => Ok(number),
            NumberKind::Float => Ok(number),
            NumberKind::Long => {
                self.find(Slot::BehindLong(bits))?;
                Ok(number)
            }
            NumberKind::Double => {
                self.find(Slot::BehindDouble(bits))?;
                Ok(number)
            }
        }
    }

    /// The number of an entry, which goes into the pool where it isn't there yet.
    fn entry(&mut self, need: Need<'a>) -> Result<usize, Memory>
        ensures takes { OnOk result (Takes (need_slots (need_seen need.entry)) self.old self.new) }
        ensures number { IfOk result (IsNumberOf (need_seen need.entry) self.new) }
    {
        match need {
            Need::Text(text) => self.text(text),
            Need::Class(name) => self.class(name),
            Need::String(text) => self.string(text),
            Need::Number(kind, bits) => self.number(kind, bits),
        }
    }

    fn item(&mut self, item: &Item<'a>) -> Result<(), Memory>
        ensures { OnOk result (Writes (item_seen item.now ∷ []) self.old self.new) }
    {
        match item {
            Item::Tag(tag) => self.body.push(*tag)?,
            Item::Flags(flags) => put_u16(&mut self.body, usize::from(*flags))?,
            Item::ParameterCount(count) => put_u8(&mut self.body, *count)?,
            Item::Count(count) => put_u16(&mut self.body, *count)?,
            Item::BodyLength(bytes) => put_u32(&mut self.body, *bytes as u64)?,
            Item::EntryNumber(need) => {
                let number = self.entry(*need)?;
                put_u16(&mut self.body, number)?;
            }
            Item::NoEntry => put_u16(&mut self.body, 0)?,
        }
        Ok(())
    }

    /// Writes what stands behind the pool, and puts what it needs into the pool.
    pub fn write(&mut self, items: &[Item<'a>]) -> Result<(), Memory>
        ensures { OnOk result (Writes (map item_seen items.now) self.old self.new) }
    {
        for item in items {
            self.item(item)?;
        }
        Ok(())
    }

    /// That the pool has no more numbers than its count holds (JVMS 4.1).
    pub fn check_pool(&self) -> Result<(), PoolErr>
        ensures { result ≡ checked (pool_refusal (length self.now.pool)) }
    {
        let needed = self.slots.len();
        if needed > MOST_NUMBERS {
            return Err(PoolErr::PoolFull {
                needed: needed as u64,
            });
        }
        Ok(())
    }

    /// The whole file, in the order of JVMS 4.1.
    pub fn file(&self, alloc: Global, minor: u16, major: u16) -> Result<Vec<u8>, Memory>
        ensures { IfOk result (λ file. file.items ≡ file_of_draft minor major self.now) }
    {
        let size = HEAD
            .saturating_add(self.entries.len())
            .saturating_add(self.body.len());
        let mut file = Vec::with_capacity(alloc, size)?;
        file.extend_from_slice(&MAGIC.to_be_bytes())?;
        put_u16(&mut file, usize::from(minor))?;
        put_u16(&mut file, usize::from(major))?;
        put_u16(&mut file, self.slots.len() + 1)?;
        file.extend_from_slice(&self.entries)?;
        file.extend_from_slice(&self.body)?;
        Ok(file)
    }
}

/// Writes a number of the pool behind its tag (JVMS 4.4.4, 4.4.5).
fn put_number(out: &mut Vec<u8>, kind: NumberKind, bits: u64) -> Result<(), Memory>
    ensures { OnOk result (out.new.items
        ≡ out.old.items ++ number_tag (kind_seen kind) ∷ bits_bytes (kind_seen kind) bits) }
{
    match kind {
        NumberKind::Integer => put_narrow(out, INTEGER, bits),
        NumberKind::Float => put_narrow(out, FLOAT, bits),
        NumberKind::Long => put_wide(out, LONG, bits),
        NumberKind::Double => put_wide(out, DOUBLE, bits),
    }
}

fn put_narrow(out: &mut Vec<u8>, tag: u8, bits: u64) -> Result<(), Memory>
    ensures { OnOk result (out.new.items ≡ out.old.items ++ tag ∷ to_be_bytes w32 bits) }
{
    out.push(tag)?;
    put_u32(out, bits)
}

fn put_wide(out: &mut Vec<u8>, tag: u8, bits: u64) -> Result<(), Memory>
    ensures { OnOk result (out.new.items ≡ out.old.items ++ tag ∷ to_be_bytes w64 bits) }
{
    out.push(tag)?;
    out.extend_from_slice(&bits.to_be_bytes())?;
    Ok(())
}
