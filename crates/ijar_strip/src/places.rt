ghost use Rattle.std.specs.Prelude.{◌≡◌, ◌++◌, [], ◌∷◌, IfOk, OnOk};
ghost use Rattle.ijar_strip.specs.Places.{last_place};

use hdr_core::Memory;
use std::alloc::Global;
use std::collections::HashMap;
use std::marker::Model;

/// A list of names, with the last place of each. Contracts see the list.
#[derive(Drop)]
pub struct Places<'a> {
    names: Vec<&'a [u8]>,
    last: HashMap<&'a [u8], u32>,
}

impl<'a> Model for Places<'a> {
    ghost use Rattle.std.specs.Prelude.{List, ℕ, map};
    ghost use Rattle.ijar_strip.specs.Places.{IsIndexed, text_seen};

    ghost Value = { List (List ℕ) };

    ghost view = { λ places. map text_seen places.names.items };

    ghost invariant = { IsIndexed };
}

impl<'a> Places<'a> {
    /// Takes no memory.
    pub fn new(alloc: Global) -> Places<'a>
        ensures { result ≡ [] }
    {
        Places {
            names: Vec::new(alloc),
            last: HashMap::new(alloc),
        }
    }

    /// The last place of a name.
    pub fn last(&self, name: &[u8]) -> Option<u32>
        ensures { result ≡ last_place self.now name.now }
    {
        self.last.get(name).copied()
    }

    /// Puts a name behind the others, and answers its last place before.
    pub fn push(&mut self, name: &'a [u8]) -> Result<Option<u32>, Memory>
        ensures before { IfOk result (λ before. before ≡ last_place self.old name.now) }
        ensures new { OnOk result (self.new ≡ self.old ++ name.now ∷ []) }
    {
        let Ok(place) = u32::try_from(self.names.len()) else {
            return Err(Memory);
        };
        self.names.reserve(1)?;
        let before = self.last.insert(name, place)?;
        self.names.push(name)?;
        Ok(before)
    }
}
