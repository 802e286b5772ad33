ghost use Rattle.std.specs.Prelude.{◌≡◌, IfOk, OnOk};
ghost use Rattle.segments.specs.Levels.{fresh, stored, ended, segments_of};

use crate::segment::{SegEnd, Segment};
use hdr_core::{List, Memory};
use java_token::Token;
use std::alloc::Global;
use std::mem;

/// The segments of the unit or of one class body, as far as they are read.
#[derive(Drop)]
pub struct Level {
    /// How many more class bodies may stand in each other here.
    pub left: u32,
    pub done: List<Segment>,
    /// The head of the segment that is read.
    pub head: List<Token>,
    /// The head has a `=` outside brackets.
    pub is_assigned: bool,
    /// The last token outside brackets was `default`, and nothing is behind it.
    pub is_behind_default: bool,
}

impl Level {
    pub fn new(alloc: Global, left: u32) -> Level
        ensures { result ≡ fresh left }
    {
        Level {
            left,
            done: List::of(Vec::new(alloc)),
            head: List::of(Vec::new(alloc)),
            is_assigned: false,
            is_behind_default: false,
        }
    }

    pub fn store(&mut self, alloc: Global, token: &Token) -> Result<(), Memory>
        ensures { OnOk result (self.new ≡ stored self.old token.now) }
    {
        let copy = token.copy(alloc)?;
        self.head.push(copy)
    }

    /// The segment that is read ends.
    pub fn end(&mut self, alloc: Global, end: SegEnd) -> Result<(), Memory>
        ensures { OnOk result (self.new ≡ ended self.old end) }
    {
        let head = mem::replace(&mut self.head, List::of(Vec::new(alloc)));
        self.is_assigned = false;
        self.is_behind_default = false;
        self.done.push(Segment { head, end })
    }

    /// The list ends.
    pub fn into_segments(self) -> Result<List<Segment>, Memory>
        ensures { IfOk result (λ segments. segments ≡ segments_of self) }
    {
        let Level {
            left: _,
            mut done,
            head,
            is_assigned: _,
            is_behind_default: _,
        } = self;
        if !head.is_empty() {
            done.push(Segment {
                head,
                end: SegEnd::Tail,
            })?;
        }
        Ok(done)
    }
}
