use crate::error::RowErr;
use std::alloc::Global;
use std::collections::BTreeMap;

/// Bytes that have names.
#[derive(Drop)]
pub struct Pieces {
    named: BTreeMap<String, Vec<u8>>,
}

/// Bytes in the making.
#[derive(Drop)]
struct Spelled {
    bytes: Vec<u8>,
    /// How often the next piece stands.
    times: u16,
    /// Whether the next piece is a text of a constant pool.
    is_entry: bool,
}

impl Spelled {
    fn push(&mut self, piece: &[u8]) -> Result<(), RowErr> {
        for _ in 0..self.times {
            self.bytes.extend_from_slice(piece)?;
        }
        self.times = 1;
        Ok(())
    }

    fn push_text(&mut self, text: &str) -> Result<(), RowErr> {
        if self.is_entry {
            let Ok(length) = u16::try_from(text.len()) else {
                return Err(RowErr::NoBytes);
            };
            self.bytes.push(1)?;
            self.bytes.extend_from_slice(&length.to_be_bytes())?;
            self.is_entry = false;
        }
        self.push(text.as_bytes())
    }

    fn push_digits(&mut self, alloc: Global, digits: &str) -> Result<(), RowErr> {
        match hex::decode(alloc, digits) {
            Ok(piece) => self.push(&piece),
            Err(hex::FromHexError::OutOfMemory) => Err(RowErr::Memory),
            Err(_) => Err(RowErr::NoBytes),
        }
    }

    fn repeat(&mut self, times: &str) -> Result<(), RowErr> {
        match times.parse() {
            Ok(times) => {
                self.times = times;
                Ok(())
            }
            Err(_) => Err(RowErr::NoBytes),
        }
    }
}

impl Pieces {
    pub fn new(alloc: Global) -> Pieces {
        Pieces {
            named: BTreeMap::new(alloc),
        }
    }

    /// Gives the bytes that the words spell a name.
    pub fn name(&mut self, alloc: Global, name: &str, words: &str) -> Result<(), RowErr> {
        let bytes = self.spelled(alloc, words)?;
        let name = String::from_str(alloc, name)?;
        self.named.insert(name, bytes)?;
        Ok(())
    }

    fn push_word(&self, alloc: Global, spelled: &mut Spelled, word: &str) -> Result<(), RowErr> {
        if let Some(name) = word.strip_prefix('$') {
            match self.named.get(name) {
                Some(piece) => spelled.push(piece),
                None => Err(RowErr::NoBytes),
            }
        } else if let Some(times) = word.strip_suffix('*') {
            spelled.repeat(times)
        } else {
            spelled.push_digits(alloc, word)
        }
    }

    fn push_words(&self, alloc: Global, spelled: &mut Spelled, words: &str) -> Result<(), RowErr> {
        for word in words.split_whitespace() {
            match word {
                "nothing" => {}
                "utf" => spelled.is_entry = true,
                _ => self.push_word(alloc, spelled, word)?,
            }
        }
        Ok(())
    }

    /// The bytes that the words spell.
    pub fn spelled(&self, alloc: Global, words: &str) -> Result<Vec<u8>, RowErr> {
        let mut spelled = Spelled {
            bytes: Vec::new(alloc),
            times: 1,
            is_entry: false,
        };
        for (index, part) in words.split('`').enumerate() {
            if index % 2 == 0 {
                self.push_words(alloc, &mut spelled, part)?;
            } else {
                spelled.push_text(part)?;
            }
        }
        if spelled.times == 1 && !spelled.is_entry {
            Ok(spelled.bytes)
        } else {
            Err(RowErr::NoBytes)
        }
    }
}
