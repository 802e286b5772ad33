ghost use Rattle.std.specs.Prelude.{◌≡◌, OnOk, Some};
ghost use Rattle.segments.specs.Answer.{Gives};
ghost use Rattle.segments.specs.Finish.{finished};
ghost use Rattle.segments.specs.Steps.{start, step, plain, noted, noted_deep, skipping, ending};
ghost use Rattle.segments.specs.Steps.{is_ending, opened_in_head, opened, closed, closed_group};
ghost use Rattle.segments.specs.Steps.{left_body};

use crate::bracket::{Mark, Pair};
use crate::class_head::is_class_head;
use crate::error::SegErr;
use crate::level::Level;
use crate::segment::{SegEnd, Segment};
use crate::words::{is_assign, is_default, is_semicolon};
use hdr_core::{List, Memory};
use java_token::Token;
use std::alloc::Global;
use std::mem;

/// Cuts a list of tokens, one token after the other.
#[derive(Drop)]
pub struct Cutter {
    pub level: Level,
    /// The levels that the open class bodies stand in, the innermost last.
    pub outer: List<Level>,
    /// The brackets that are open, the innermost last.
    pub brackets: List<Open>,
    pub place: Place,
    /// The line of the first head whose class body stands too deep.
    pub deep: Option<u32>,
    /// The line of the first closing bracket that doesn't pair.
    pub wrong: Option<u32>,
}

/// Where the next token stands.
#[derive(Clone, Copy)]
pub enum Place {
    /// Outside all brackets of the level.
    Outside,
    /// In brackets whose tokens are in the head.
    Inside,
    /// In a group of which the head has at most its braces.
    Hidden,
}

/// An opening bracket whose partner has not come.
#[derive(Clone, Copy)]
pub struct Open {
    pub line: u32,
    pub pair: Pair,
    pub group: Group,
}

/// What an open group is.
#[derive(Clone, Copy)]
pub enum Group {
    /// Its brackets are in the head, outside other brackets.
    Outer,
    /// Its brackets are in the head, in other brackets.
    Inner,
    /// Nothing of it is in the head.
    Hidden,
    /// It ends the segment, and is skipped.
    Skipped,
    /// A class body. Its outer level is kept apart, so that a bracket takes little room.
    Body,
}

impl Cutter {
    /// `most` is how many class bodies may stand in each other.
    #[tactic(auto, unfolding(crate::specs::Steps::start))]
    pub fn new(alloc: Global, most: u32) -> Cutter
        ensures { result ≡ start most }
    {
        Cutter {
            level: Level::new(alloc, most),
            outer: List::of(Vec::new(alloc)),
            brackets: List::of(Vec::new(alloc)),
            place: Place::Outside,
            deep: None,
            wrong: None,
        }
    }

    /// Takes the next token. Behind a bracket that doesn't pair nothing more is taken.
    #[tactic(auto, unfolding(crate::specs::Steps::step))]
    pub fn push(&mut self, alloc: Global, token: &Token) -> Result<(), Memory>
        ensures { OnOk result (self.new ≡ step self.old token.now) }
    {
        if self.wrong.is_some() {
            return Ok(());
        }
        match Mark::of(token) {
            Mark::Opening(pair) => self.open(alloc, pair, token),
            Mark::Closing(pair) => self.close(alloc, pair, token),
            Mark::Plain => self.plain(alloc, token),
        }
    }

    /// The list ends.
    pub fn finish(self) -> Result<List<Segment>, SegErr>
        ensures { Gives result (finished self) }
    {
        let Cutter {
            level,
            outer: _,
            brackets,
            place: _,
            deep,
            wrong,
        } = self;
        if let Some(line) = wrong {
            return Err(SegErr::Unbalanced { line });
        }
        if let [first, ..] = brackets.items() {
            return Err(SegErr::Unbalanced { line: first.line });
        }
        if let Some(line) = deep {
            return Err(SegErr::TooDeep { line });
        }
        Ok(level.into_segments()?)
    }

    fn plain(&mut self, alloc: Global, token: &Token) -> Result<(), Memory>
        ensures { OnOk result (self.new ≡ plain self.old token.now) }
    {
        match self.place {
            Place::Outside if is_semicolon(token) => self.level.end(alloc, SegEnd::Semi),
            Place::Outside => {
                self.level.store(alloc, token)?;
                self.level.is_assigned = self.level.is_assigned || is_assign(token);
                self.level.is_behind_default = is_default(token);
                Ok(())
            }
            Place::Inside => self.level.store(alloc, token),
            Place::Hidden => Ok(()),
        }
    }

    fn open(&mut self, alloc: Global, pair: Pair, token: &Token) -> Result<(), Memory>
        ensures { OnOk result (self.new ≡ opened self.old pair token.now) }
    {
        match self.place {
            Place::Outside if self.is_ending(pair) => self.open_ending(alloc, token),
            Place::Outside => {
                self.level.is_behind_default = false;
                self.open_in_head(alloc, pair, token, Group::Outer)
            }
            Place::Inside => self.open_in_head(alloc, pair, token, Group::Inner),
            Place::Hidden => self.note(pair, token, Group::Hidden),
        }
    }

    /// A bracket of this pair begins a group that ends the segment.
    fn is_ending(&self, pair: Pair) -> bool
        ensures { result ≡ is_ending pair self.now.level }
    {
        match pair {
            Pair::Braces => !(self.level.is_assigned || self.level.is_behind_default),
            _ => false,
        }
    }

    fn note(&mut self, pair: Pair, token: &Token, group: Group) -> Result<(), Memory>
        ensures { OnOk result (self.new ≡ noted self.old pair token.now group) }
    {
        self.brackets.push(Open {
            pair,
            line: token.line,
            group,
        })
    }

    fn open_in_head(
        &mut self,
        alloc: Global,
        pair: Pair,
        token: &Token,
        group: Group,
    ) -> Result<(), Memory>
        ensures { OnOk result (self.new ≡ opened_in_head self.old pair token.now group) }
    {
        self.level.store(alloc, token)?;
        self.place = match pair {
            Pair::Braces if self.level.is_assigned => Place::Hidden,
            _ => Place::Inside,
        };
        self.note(pair, token, group)
    }

    /// A group that ends the segment.
    fn open_ending(&mut self, alloc: Global, token: &Token) -> Result<(), Memory>
        ensures { OnOk result (self.new ≡ ending self.old token.now) }
    {
        if !is_class_head(self.level.head.items()) {
            return self.skip(token);
        }
        if self.level.left == 0 {
            self.note_deep(token);
            return self.skip(token);
        }
        let inner = Level::new(alloc, self.level.left - 1);
        let outer = mem::replace(&mut self.level, inner);
        self.outer.push(outer)?;
        self.note(Pair::Braces, token, Group::Body)
    }

    fn skip(&mut self, token: &Token) -> Result<(), Memory>
        ensures { OnOk result (self.new ≡ skipping self.old token.now) }
    {
        self.place = Place::Hidden;
        self.note(Pair::Braces, token, Group::Skipped)
    }

    /// The head of the level has a class body too deep.
    fn note_deep(&mut self, token: &Token)
        ensures { self.new ≡ noted_deep self.old token.now }
    {
        if self.deep.is_none() {
            let line = match self.level.head.items() {
                [first, ..] => first.line,
                [] => token.line,
            };
            self.deep = Some(line);
        }
    }

    fn close(&mut self, alloc: Global, pair: Pair, token: &Token) -> Result<(), Memory>
        ensures { OnOk result (self.new ≡ closed self.old pair token.now) }
    {
        match self.brackets.pop() {
            Some(bracket) if bracket.pair == pair => self.close_group(alloc, bracket, token),
            _ => {
                self.wrong = Some(token.line);
                Ok(())
            }
        }
    }

    /// A class body ends, and the level that it stands in goes on.
    fn leave_body(&mut self, alloc: Global, outer: Level) -> Result<(), Memory>
        ensures { OnOk result (self.new ≡ left_body (Some outer) self.old) }
    {
        let inner = mem::replace(&mut self.level, outer);
        let body = inner.into_segments()?;
        self.level.end(alloc, SegEnd::Body(body))
    }

    fn close_group(&mut self, alloc: Global, bracket: Open, token: &Token) -> Result<(), Memory>
        ensures { OnOk result (self.new
            ≡ closed_group bracket.group bracket.line self.old token.now) }
    {
        match bracket.group {
            Group::Outer => {
                self.place = Place::Outside;
                self.level.store(alloc, token)
            }
            Group::Inner => {
                self.place = Place::Inside;
                self.level.store(alloc, token)
            }
            Group::Hidden => Ok(()),
            Group::Skipped => {
                self.place = Place::Outside;
                let line = bracket.line;
                self.level.end(alloc, SegEnd::Skipped { line })
            }
            Group::Body => match self.outer.pop() {
                Some(outer) => self.leave_body(alloc, outer),
                None => Ok(()),
            },
        }
    }
}
