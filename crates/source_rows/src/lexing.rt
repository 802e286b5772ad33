//! The tokens of texts.
//!
//! A token stands behind `@` and its line where that is not the line of the token before. A word
//! stands for itself; `<Class>` is a keyword, `:Dot` a separator or an operator; `7` is a decimal
//! integer, `x7` another, `7L` a long one, and `?` one above 64 bits; `~double` is a
//! floating-point literal, `'97` a character, `"a"` a string. `!2 Utf8` is a fault on line 2.
use crate::told::{add, add_number, both};
use java_lexer::{LexErr, LexLit, Lexer, Token, TokenKind, lex};
use rows::{Asked, RowErr};
use std::alloc::Global;

/// The most bytes of a source here.
const MOST: usize = 1_000_000;

/// The tokens of bytes, if these aren't too many.
pub fn lexed(alloc: Global, bytes: &[u8]) -> Result<Vec<Token>, LexErr> {
    if bytes.len() > MOST {
        return Err(LexErr::Memory);
    }
    lex(alloc, bytes)
}

/// The tokens of the input.
pub fn tokens_of(alloc: Global, asked: Asked<'_>) -> Result<Vec<Token>, RowErr> {
    spelled_tokens(alloc, asked, asked.input)
}

/// The tokens of the text that the words spell.
pub fn spelled_tokens(alloc: Global, asked: Asked<'_>, words: &str) -> Result<Vec<Token>, RowErr> {
    match lexed(alloc, &asked.pieces.spelled(alloc, words)?) {
        Ok(tokens) => Ok(tokens),
        Err(LexErr::Fault(_)) => Err(RowErr::NoSubject),
        Err(LexErr::Memory) => Err(RowErr::Memory),
    }
}

/// The tokens of a text that is fed whole.
fn whole(alloc: Global, source: &[u8]) -> Result<Vec<Token>, LexErr> {
    if source.len() > MOST {
        return Err(LexErr::Memory);
    }
    let mut lexer = Lexer::start(alloc);
    let mut tokens = lexer.feed(alloc, source)?;
    append(&mut tokens, lexer.finish(alloc)?)?;
    Ok(tokens)
}

/// The tokens of a text that is fed byte by byte.
fn byte_by_byte(alloc: Global, source: &[u8]) -> Result<Vec<Token>, LexErr> {
    if source.len() > MOST {
        return Err(LexErr::Memory);
    }
    let mut lexer = Lexer::start(alloc);
    let mut tokens = Vec::new(alloc);
    for index in 0..source.len() {
        let piece = &source[index..index + 1];
        append(&mut tokens, lexer.feed(alloc, piece)?)?;
    }
    append(&mut tokens, lexer.finish(alloc)?)?;
    Ok(tokens)
}

fn append(tokens: &mut Vec<Token>, mut more: Vec<Token>) -> Result<(), LexErr> {
    match tokens.append(&mut more) {
        Ok(()) => Ok(()),
        Err(_) => Err(LexErr::Memory),
    }
}

/// Tokens, or the fault in their place.
fn told(alloc: Global, tokens: Result<Vec<Token>, LexErr>) -> Result<Vec<u8>, RowErr> {
    match tokens {
        Ok(tokens) => told_tokens(alloc, &tokens),
        Err(LexErr::Fault(fault)) => {
            Ok(format!(in alloc; "!{} {:?}", fault.line, fault.kind)?.into_bytes())
        }
        Err(LexErr::Memory) => Err(RowErr::Memory),
    }
}

/// Tokens, and their lines where they change.
pub fn told_tokens(alloc: Global, tokens: &[Token]) -> Result<Vec<u8>, RowErr> {
    let mut told = Vec::new(alloc);
    let mut line = 1;
    for token in tokens {
        if !told.is_empty() {
            add(&mut told, b" ")?;
        }
        if token.line != line {
            add(&mut told, b"@")?;
            add_number(&mut told, u64::from(token.line))?;
            add(&mut told, b" ")?;
            line = token.line;
        }
        add_kind(alloc, &mut told, &token.kind)?;
    }
    Ok(told)
}

fn add_kind(alloc: Global, told: &mut Vec<u8>, kind: &TokenKind) -> Result<(), RowErr> {
    match kind {
        TokenKind::Word(word) => add_bytes(alloc, told, word.bytes()),
        TokenKind::Keyword(keyword) => {
            add(told, format!(in alloc; "<{:?}>", *keyword)?.as_bytes())
        }
        TokenKind::Op(operator) => add(told, format!(in alloc; ":{:?}", *operator)?.as_bytes()),
        TokenKind::Lit(literal) => add_literal(alloc, told, literal),
    }
}

fn add_literal(alloc: Global, told: &mut Vec<u8>, literal: &LexLit) -> Result<(), RowErr> {
    match literal {
        LexLit::Int {
            value,
            decimal,
            long,
        } => add_integer(told, *value, *decimal, *long),
        LexLit::Real { double: true } => add(told, b"~double"),
        LexLit::Real { double: false } => add(told, b"~float"),
        LexLit::Char(unit) => {
            add(told, b"'")?;
            add_number(told, u64::from(*unit))
        }
        LexLit::Str(string) => {
            add(told, b"\"")?;
            add_bytes(alloc, told, string.bytes())?;
            add(told, b"\"")
        }
    }
}

fn add_integer(
    told: &mut Vec<u8>,
    value: Option<u64>,
    decimal: bool,
    long: bool,
) -> Result<(), RowErr> {
    if !decimal {
        add(told, b"x")?;
    }
    match value {
        Some(value) => add_number(told, value)?,
        None => add(told, b"?")?,
    }
    if long {
        add(told, b"L")?;
    }
    Ok(())
}

fn add_bytes(alloc: Global, told: &mut Vec<u8>, bytes: &[u8]) -> Result<(), RowErr> {
    for byte in bytes {
        if *byte >= 0x20 && *byte < 0x7F && *byte != b'"' && *byte != b'\\' {
            told.push(*byte)?;
        } else {
            add(told, format!(in alloc; "\\x{:02X}", *byte)?.as_bytes())?;
        }
    }
    Ok(())
}

/// The tokens of a text that is fed whole, and where others are told byte by byte, these.
pub fn told_both_ways(alloc: Global, asked: Asked<'_>) -> Result<Vec<u8>, RowErr> {
    let source = asked.pieces.spelled(alloc, asked.input)?;
    let at_once = told(alloc, whole(alloc, &source))?;
    let in_bytes = told(alloc, byte_by_byte(alloc, &source))?;
    both(at_once, &in_bytes)
}
