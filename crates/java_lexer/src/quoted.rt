//! Characters, strings and text blocks (JLS 3.10.4 to 3.10.7), symbol by symbol.
ghost use Rattle.std.specs.Prelude.{◌≡◌, ℕ};
ghost use Rattle.java_lexer.specs.Machine as machine;

use crate::form::Form;
use crate::kind::Kind;
use crate::number::is_octal;

/// What the symbols of a quotation so far make of it.
#[derive(Clone, Copy)]
pub enum Quoted {
    /// `"`
    Quote,
    /// `""`, an empty string or the beginning of a text block.
    TwoQuotes,
    /// In a string.
    Text,
    /// Behind a backslash in a string.
    TextEscape,
    /// `"""`, and white space.
    BlockOpening,
    /// In a text block.
    Block,
    BlockQuote,
    BlockTwoQuotes,
    BlockEscape,
    /// `'`
    Apostrophe,
    CharacterEscape,
    /// Behind an octal digit of at most 3, which two more may follow.
    LowOctal,
    /// Behind octal digits, which one more may follow.
    Octal,
    /// A whole character: only the closing quotation mark is to come.
    Character,
}

impl Quoted {
    pub fn next(self, symbol: u8) -> Option<Form>
        ensures { result ≡ machine.next_quoted self symbol }
    {
        match self {
            Quoted::Quote | Quoted::TwoQuotes | Quoted::Text | Quoted::TextEscape => {
                self.after_text(symbol)
            }
            Quoted::BlockOpening
            | Quoted::Block
            | Quoted::BlockQuote
            | Quoted::BlockTwoQuotes
            | Quoted::BlockEscape => self.after_block(symbol),
            _ => self.after_character(symbol),
        }
    }

    pub fn kind(self) -> Option<Kind>
        ensures { result ≡ machine.quoted_kind self }
    {
        match self {
            Quoted::TwoQuotes => Some(Kind::String),
            _ => None,
        }
    }

    fn after_text(self, symbol: u8) -> Option<Form>
        ensures { result ≡ machine.after_text self symbol }
    {
        match self {
            Quoted::Quote => {
                if symbol == b'"' {
                    Some(Form::Quoted(Quoted::TwoQuotes))
                } else {
                    text_symbol(symbol)
                }
            }
            Quoted::TwoQuotes => {
                if symbol == b'"' {
                    Some(Form::Quoted(Quoted::BlockOpening))
                } else {
                    None
                }
            }
            Quoted::Text => {
                if symbol == b'"' {
                    Some(Form::Closed(Kind::String))
                } else {
                    text_symbol(symbol)
                }
            }
            _ => {
                if begins_escape(symbol) {
                    Some(Form::Quoted(Quoted::Text))
                } else {
                    None
                }
            }
        }
    }

    fn after_block(self, symbol: u8) -> Option<Form>
        ensures { result ≡ machine.after_block self symbol }
    {
        match self {
            Quoted::BlockOpening => {
                if symbol == b' ' || symbol == b'\t' || symbol == 0x0C {
                    Some(Form::Quoted(Quoted::BlockOpening))
                } else if symbol == b'\n' || symbol == b'\r' {
                    Some(Form::Quoted(Quoted::Block))
                } else {
                    None
                }
            }
            Quoted::Block => block_symbol(symbol, Form::Quoted(Quoted::BlockQuote)),
            Quoted::BlockQuote => block_symbol(symbol, Form::Quoted(Quoted::BlockTwoQuotes)),
            Quoted::BlockTwoQuotes => block_symbol(symbol, Form::Closed(Kind::TextBlock)),
            _ => {
                if begins_escape(symbol) || symbol == b'\n' || symbol == b'\r' {
                    Some(Form::Quoted(Quoted::Block))
                } else {
                    None
                }
            }
        }
    }

    fn after_character(self, symbol: u8) -> Option<Form>
        ensures { result ≡ machine.after_character self symbol }
    {
        match self {
            Quoted::Apostrophe => character_symbol(symbol),
            Quoted::CharacterEscape => escape_symbol(symbol),
            Quoted::LowOctal => {
                if is_octal(symbol) {
                    Some(Form::Quoted(Quoted::Octal))
                } else {
                    closing(symbol)
                }
            }
            Quoted::Octal => {
                if is_octal(symbol) {
                    Some(Form::Quoted(Quoted::Character))
                } else {
                    closing(symbol)
                }
            }
            _ => closing(symbol),
        }
    }
}

fn text_symbol(symbol: u8) -> Option<Form>
    ensures { result ≡ machine.text_symbol symbol }
{
    if symbol == b'\\' {
        Some(Form::Quoted(Quoted::TextEscape))
    } else if symbol == b'\n' || symbol == b'\r' {
        None
    } else {
        Some(Form::Quoted(Quoted::Text))
    }
}

fn block_symbol(symbol: u8, quoted: Form) -> Option<Form>
    ensures { result ≡ machine.block_symbol symbol quoted }
{
    if symbol == b'"' {
        Some(quoted)
    } else if symbol == b'\\' {
        Some(Form::Quoted(Quoted::BlockEscape))
    } else {
        Some(Form::Quoted(Quoted::Block))
    }
}

fn character_symbol(symbol: u8) -> Option<Form>
    ensures { result ≡ machine.character_symbol symbol }
{
    if symbol == b'\\' {
        Some(Form::Quoted(Quoted::CharacterEscape))
    } else if symbol == b'\'' || symbol == b'\n' || symbol == b'\r' {
        None
    } else {
        Some(Form::Quoted(Quoted::Character))
    }
}

fn escape_symbol(symbol: u8) -> Option<Form>
    ensures { result ≡ machine.escape_symbol symbol }
{
    if symbol >= b'0' && symbol <= b'3' {
        Some(Form::Quoted(Quoted::LowOctal))
    } else if is_octal(symbol) {
        Some(Form::Quoted(Quoted::Octal))
    } else if begins_escape(symbol) {
        Some(Form::Quoted(Quoted::Character))
    } else {
        None
    }
}

fn closing(symbol: u8) -> Option<Form>
    ensures { result ≡ machine.closing symbol }
{
    if symbol == b'\'' {
        Some(Form::Closed(Kind::Character))
    } else {
        None
    }
}

fn begins_escape(symbol: u8) -> bool
    ensures { result ≡ machine.begins_escape symbol }
{
    is_octal(symbol)
        || matches!(
            symbol,
            b'b' | b's' | b't' | b'n' | b'f' | b'r' | b'"' | b'\'' | b'\\'
        )
}
