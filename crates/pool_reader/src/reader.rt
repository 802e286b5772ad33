ghost use Rattle.std.specs.Prelude.{◌≡◌, ◌<◌, ◌^◌, ◌==◌, length};
ghost use Rattle.std.specs.Int.{w8, w16, w32, w64};
ghost use Rattle.pool_reader.specs.declared.fault.ReadErr.TheVariants.{Fault};
ghost use Rattle.pool_reader.specs.Reading.{Gives, cut as cut_of, offset as offset_of};
ghost use Rattle.pool_reader.specs.Reading.{number_at, piece_at, start, body_at, Answers};
ghost use Rattle.pool_reader.specs.Reading.{ended, left_over as left_over_of, spent_at};
ghost use Rattle.pool_reader.specs.Reading.{behind_body};

use crate::fault::{ClassKind, ReadErr};
use class_desc::MOST_TEXT;
use std::marker::Model;

/// Where a reading of a class file stands: the bytes that are left, the offset at which they end,
/// the offset of the length of the attribute whose body they are, if they are one, and how many
/// bytes of texts may still be named.
///
/// A method that fails leaves the reader anywhere: reading ends there.
#[derive(Drop)]
pub struct Reader<'a> {
    rest: &'a [u8],
    end: u32,
    outer: Option<u32>,
    spare: usize,
}

impl<'a> Model for Reader<'a> {
    ghost use Rattle.pool_reader.specs.Reading.{Position};

    ghost Value = { Position };

    ghost view = { λ reader. record {
      rest = reader.rest.now;
      end = reader.end;
      outer = reader.outer;
      spare = reader.spare;
    } };
}

impl<'a> Reader<'a> {
    /// A reader of a whole file.
    pub fn of(bytes: &'a [u8]) -> Reader<'a>
        requires { length bytes.now < 2 ^ 32 }
        ensures { result ≡ start bytes.now }
    {
        Reader {
            rest: bytes,
            end: bytes.len() as u32,
            outer: None,
            spare: MOST_TEXT,
        }
    }

    /// How many bytes are left.
    pub fn len(&self) -> usize
        ensures { result ≡ length self.now.rest }
    {
        self.rest.len()
    }

    /// Whether none is.
    pub fn is_empty(&self) -> bool
        ensures { result ≡ (length self.now.rest == 0) }
    {
        self.rest.is_empty()
    }

    /// The offset of the next item.
    pub fn offset(&self) -> u32
        ensures { result ≡ offset_of self.now }
    {
        (self.end as usize).saturating_sub(self.rest.len()) as u32
    }

    /// The fault of the next item, which isn't whole.
    fn cut(&self) -> ReadErr
        ensures { result ≡ Fault (cut_of self.now) }
    {
        match self.outer {
            None => ClassKind::F1.at(self.offset()),
            Some(length_at) => ClassKind::F8.at(length_at),
        }
    }

    /// The next bytes, as many as `count`. Where fewer are left it is F1 at the first of them, or,
    /// in the body of an attribute, F8 at its length; so with each number.
    pub fn piece(&mut self, count: usize) -> Result<&'a [u8], ReadErr>
        ensures { Gives (λ piece. piece.now) result self.new (piece_at count self.old) }
    {
        if self.rest.len() < count {
            return Err(self.cut());
        }
        let (piece, rest) = self.rest.split_at(count);
        self.rest = rest;
        Ok(piece)
    }

    /// The next byte.
    pub fn u8(&mut self) -> Result<u8, ReadErr>
        ensures { Gives (λ n. n) result self.new (number_at w8 self.old) }
    {
        let bytes = self.piece(1)?;
        Ok(bytes[0])
    }

    /// The next two bytes as a number, the highest first.
    pub fn u16(&mut self) -> Result<u16, ReadErr>
        ensures { Gives (λ n. n) result self.new (number_at w16 self.old) }
    {
        let bytes = self.piece(2)?;
        Ok(u16::from_be_bytes([bytes[0], bytes[1]]))
    }

    /// The next four bytes as a number, the highest first.
    pub fn u32(&mut self) -> Result<u32, ReadErr>
        ensures { Gives (λ n. n) result self.new (number_at w32 self.old) }
    {
        let bytes = self.piece(4)?;
        Ok(u32::from_be_bytes([bytes[0], bytes[1], bytes[2], bytes[3]]))
    }

    /// The next eight bytes as a number, the highest first.
    pub fn u64(&mut self) -> Result<u64, ReadErr>
        ensures { Gives (λ n. n) result self.new (number_at w64 self.old) }
    {
        let b = self.piece(8)?;
        Ok(u64::from_be_bytes([b[0], b[1], b[2], b[3], b[4], b[5], b[6], b[7]]))
    }

    /// Takes note of a text of as many bytes, which the item at this offset names: F13 there where
    /// there is no room for it.
    #[tactic(auto, unfolding(crate::specs::Reading::spent_at))]
    pub fn spend(&mut self, at: u32, bytes: usize) -> Result<(), ReadErr>
        ensures { Gives (λ _. tt) result self.new (spent_at at bytes self.old) }
    {
        if self.spare < bytes {
            return Err(ClassKind::F13.at(at));
        }
        self.spare -= bytes;
        Ok(())
    }

    /// A reader of the body of an attribute, whose length is the next item (JVMS 4.7). This one
    /// goes on behind the body, with [`leave`](Reader::leave).
    #[tactic(auto, unfolding(crate::specs::Reading::body_at))]
    pub fn body(&mut self) -> Result<Reader<'a>, ReadErr>
        ensures { Gives (λ body. body) result self.new (body_at self.old) }
    {
        let length_at = self.offset();
        let count = self.u32()?;
        let rest = self.piece(count as usize)?;
        Ok(Reader {
            rest,
            end: self.offset(),
            outer: Some(length_at),
            spare: self.spare,
        })
    }

    /// Goes on behind a body, of which no byte may be left.
    pub fn leave(&mut self, body: &Reader<'a>) -> Result<(), ReadErr>
        ensures { Gives (λ _. tt) result self.new (behind_body body.now self.old) }
    {
        body.finish()?;
        self.spare = body.spare;
        Ok(())
    }

    /// The fault of bytes that are left.
    fn left_over(&self) -> ReadErr
        ensures { result ≡ Fault (left_over_of self.now self.now.outer) }
    {
        match self.outer {
            None => ClassKind::F10.at(self.offset()),
            Some(outer) => ClassKind::F8.at(outer),
        }
    }

    /// That no byte is left: F10 in a file, F8 in a body.
    pub fn finish(&self) -> Result<(), ReadErr>
        ensures { Answers (λ _. tt) result (ended self.now) }
    {
        if self.is_empty() {
            Ok(())
        } else {
            Err(self.left_over())
        }
    }
}
