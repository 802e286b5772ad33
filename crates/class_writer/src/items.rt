//! What stands behind the pool of a class file, in the order of the file.
ghost use Rattle.std.specs.Prelude.{◌≡◌, ◌<◌, ◌∷◌, [], length, map, IfOk, OnOk};
ghost use Rattle.class_desc.specs.Layout.{Flags, text_item, class_item, or_no_entry, class_list};
ghost use Rattle.class_writer.specs.Seen.{item_seen};
ghost use Rattle.class_writer.specs.Writing.{Puts, BeginsAttribute, EndsAttribute};

use crate::body::Body;
use crate::item::Item;
use crate::need::Need;
use hdr_core::{Memory, Text};
use std::alloc::Global;
use std::marker::Model;

/// How many items there is room for at first: those of a plain class.
const ROOM: usize = 128;

/// The items so far, and how many bytes they have, told up to the greatest number.
#[derive(Drop)]
pub struct Items<'a> {
    items: Vec<Item<'a>>,
    size: usize,
}

impl<'a> Model for Items<'a> {
    ghost use Rattle.std.specs.Prelude.{map};
    ghost use Rattle.class_writer.specs.Seen.{item_seen};
    ghost use Rattle.class_writer.specs.Writing.{Outline};

    ghost Value = { Outline };

    ghost view = { λ them. record { items = map item_seen them.items.items; size = them.size } };
}

impl<'a> Items<'a> {
    pub fn new(alloc: Global) -> Result<Items<'a>, Memory>
        ensures { IfOk result (λ them. them ≡ record { items = []; size = 0 }) }
    {
        Ok(Items {
            items: Vec::with_capacity(alloc, ROOM)?,
            size: 0,
        })
    }

    pub fn items(&self) -> &[Item<'a>]
        ensures { map item_seen result.now ≡ self.now.items }
    {
        self.items.as_slice()
    }

    /// How many bytes the items have, told up to the greatest number.
    pub fn size(&self) -> usize
        ensures { result ≡ self.now.size }
    {
        self.size
    }

    pub fn push(&mut self, item: Item<'a>) -> Result<(), Memory>
        ensures { OnOk result (Puts (item_seen item.entry ∷ []) self.old self.new) }
    {
        self.size = self.size.saturating_add(item.size());
        self.items.push(item)?;
        Ok(())
    }

    pub fn flags(&mut self, flags: u16) -> Result<(), Memory>
        ensures { OnOk result (Puts (Flags flags ∷ []) self.old self.new) }
    {
        self.push(Item::Flags(flags))
    }

    pub fn text(&mut self, text: &'a Text) -> Result<(), Memory>
        ensures { OnOk result (Puts (text_item text.now ∷ []) self.old self.new) }
    {
        self.push(Item::EntryNumber(Need::Text(text.bytes())))
    }

    pub fn class(&mut self, name: &'a Text) -> Result<(), Memory>
        ensures { OnOk result (Puts (class_item name.now ∷ []) self.old self.new) }
    {
        self.push(Item::EntryNumber(Need::Class(name.bytes())))
    }

    pub fn text_or_none(&mut self, text: &'a Option<Text>) -> Result<(), Memory>
        ensures { OnOk result (Puts (or_no_entry text_item text.now ∷ []) self.old self.new) }
    {
        match text {
            Some(text) => self.text(text),
            None => self.push(Item::NoEntry),
        }
    }

    pub fn class_or_none(&mut self, name: &'a Option<Text>) -> Result<(), Memory>
        ensures { OnOk result (Puts (or_no_entry class_item name.now ∷ []) self.old self.new) }
    {
        match name {
            Some(name) => self.class(name),
            None => self.push(Item::NoEntry),
        }
    }

    /// Classes behind their number.
    pub fn classes(&mut self, names: &'a [Text]) -> Result<(), Memory>
        ensures { OnOk result (Puts (class_list names.now) self.old self.new) }
    {
        self.push(Item::Count(names.len()))?;
        for name in names {
            self.class(name)?;
        }
        Ok(())
    }

    /// Puts down the name of an attribute and a place for the length of its body, whose bytes are
    /// counted from here on.
    pub fn begin_attribute(&mut self, name: &'a [u8]) -> Result<Body, Memory>
        ensures { IfOk result (λ body. BeginsAttribute name.now body self.old self.new) }
    {
        self.push(Item::EntryNumber(Need::Text(name)))?;
        let body = Body {
            place: self.items.len(),
            before: self.size,
        };
        self.items.push(Item::BodyLength(0))?;
        self.size = 0;
        Ok(body)
    }

    /// Puts down the length of the body that was begun.
    pub fn end_attribute(&mut self, body: Body)
        requires { body.place < length self.old.items }
        ensures { EndsAttribute body self.old self.new }
    {
        let size = self.size();
        self.items[body.place] = Item::BodyLength(size);
        self.size = size.saturating_add(4).saturating_add(body.before);
    }
}
