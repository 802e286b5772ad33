ghost use Rattle.std.specs.Prelude.{◌≡◌, [], ◌∷◌, ◌++◌, length, ◌↔◌, IsTrue, OnOk, OnErr};
ghost use Rattle.hdr_core.specs.Stack.{top, below};

use crate::memory::Memory;
use std::marker::Model;

/// A `Vec` that contracts see as the list of its items, so that a copy equals its source.
///
/// A type may hold itself through a `List`.
#[derive(Debug, Drop)]
pub struct List<T> {
    items: Vec<T>,
}

impl<T> Model for List<T> {
    ghost use Rattle.std.specs.Prelude.{List as Items};
    ghost use Rattle.std.specs.Coded.{coded_list};

    ghost Value = { Items T };

    ghost coded = { coded_list T.code };

    ghost view = { λ list. list.items.items };
}

impl<T> List<T> {
    /// Takes no memory.
    pub fn of(items: Vec<T>) -> List<T>
        ensures { result ≡ items.items }
    {
        List { items }
    }

    pub fn items(&self) -> &[T]
        ensures { result.now ≡ self.now }
    {
        self.items.as_slice()
    }

    /// Takes no memory.
    pub fn into_items(self) -> Vec<T>
        ensures { result.items ≡ self }
    {
        let List { items } = self;
        items
    }

    pub fn len(&self) -> usize
        ensures { result ≡ length self.now }
    {
        self.items.len()
    }

    pub fn is_empty(&self) -> bool
        ensures { IsTrue result ↔ (self.now ≡ []) }
    {
        self.items.is_empty()
    }

    /// Takes the last item off. Takes no memory.
    pub fn pop(&mut self) -> Option<T>
        ensures top { result ≡ top self.old }
        ensures below { self.new ≡ below self.old }
    {
        self.items.pop()
    }
}

impl<T: Drop> List<T> {
    /// Puts an item behind the others.
    pub fn push(&mut self, item: T) -> Result<(), Memory>
        ensures ok { OnOk result (self.new ≡ self.old ++ item ∷ []) }
        ensures err { OnErr result (self.new ≡ self.old) }
    {
        self.items.push(item)?;
        Ok(())
    }
}

impl<T: PartialEq> PartialEq for List<T> {
    ghost use lib.Pointwise.{pointwise};
    ghost use Rattle.std.specs.Cmp.Lexicographic.{lists_per};

    ghost eq = { pointwise T.eq };

    ghost laws = { lists_per T.laws };

    fn eq(&self, other: &List<T>) -> bool {
        self.items() == other.items()
    }
}

impl<T: Eq> Eq for List<T> {
    ghost use Rattle.std.specs.Cmp.Lexicographic.{lists_equiv};

    ghost laws = { lists_equiv T.Eq.laws };
}
