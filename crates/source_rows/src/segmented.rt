//! How tokens are cut into segments.
use crate::lexing::{lexed, spelled_tokens, tokens_of, told_tokens};
use crate::told::{add, add_number};
use java_lexer::{LexErr, LexLit, OpTok, Token, TokenKind};
use rows::{Asked, RowErr};
use segments::{SegEnd, SegErr, Segment, segments};
use std::alloc::Global;

/// Adds a token of the first line.
fn push(tokens: &mut Vec<Token>, kind: TokenKind) -> Result<(), RowErr> {
    tokens.push(Token { kind, line: 1 })?;
    Ok(())
}

fn number(value: u32) -> TokenKind {
    TokenKind::Lit(LexLit::Int {
        value: Some(u64::from(value)),
        decimal: true,
        long: false,
    })
}

/// Writes segments as tokens of one line: `~` ends a tail, `%` and a line a skipped group, and a
/// class body stands between `<<` and `>>`.
fn write(alloc: Global, segments: &[Segment], written: &mut Vec<Token>) -> Result<(), RowErr> {
    for segment in segments {
        for token in segment.head.items() {
            push(written, token.kind.copy(alloc)?)?;
        }
        match &segment.end {
            SegEnd::Semi => push(written, TokenKind::Op(OpTok::Semicolon))?,
            SegEnd::Skipped { line } => {
                push(written, TokenKind::Op(OpTok::Percent))?;
                push(written, number(*line))?;
            }
            SegEnd::Tail => push(written, TokenKind::Op(OpTok::Complement))?,
            SegEnd::Body(body) => {
                push(written, TokenKind::Op(OpTok::ShiftLeft))?;
                write(alloc, body.items(), written)?;
                push(written, TokenKind::Op(OpTok::ShiftRight))?;
            }
        }
    }
    Ok(())
}

/// `so`, where the text in front of ` | ` is cut into the segments that are written behind it; the
/// tokens of its segments else.
pub fn cut_as(alloc: Global, asked: Asked<'_>) -> Result<Vec<u8>, RowErr> {
    let Some((source, wanted)) = asked.input.split_once(" | ") else {
        return Err(RowErr::NoRow);
    };
    let mut written = Vec::new(alloc);
    match segments(alloc, &spelled_tokens(alloc, asked, source)?) {
        Ok(cut) => write(alloc, cut.items(), &mut written)?,
        Err(SegErr::Memory) => return Err(RowErr::Memory),
        Err(_) => return Err(RowErr::NoSubject),
    }
    if written == spelled_tokens(alloc, asked, wanted)? {
        Ok(Vec::from_slice(alloc, b"so")?)
    } else {
        told_tokens(alloc, &written)
    }
}

/// The line of the bracket without partner, or `none`; of the body that stands too deep.
pub fn refusal_of(alloc: Global, asked: Asked<'_>) -> Result<Vec<u8>, RowErr> {
    let mut told = Vec::new(alloc);
    match segments(alloc, &tokens_of(alloc, asked)?) {
        Ok(_) => add(&mut told, b"none")?,
        Err(SegErr::Unbalanced { line }) => add_number(&mut told, u64::from(line))?,
        Err(SegErr::TooDeep { line }) => {
            add(&mut told, b"too deep ")?;
            add_number(&mut told, u64::from(line))?;
        }
        Err(SegErr::Memory) => return Err(RowErr::Memory),
    }
    Ok(told)
}

/// The line that is named where a source has no segments, whatever is wrong there.
pub fn bad_line(alloc: Global, asked: Asked<'_>) -> Result<Vec<u8>, RowErr> {
    let line = match lexed(alloc, &asked.pieces.spelled(alloc, asked.input)?) {
        Ok(tokens) => match segments(alloc, &tokens) {
            Ok(_) => return Err(RowErr::NoSubject),
            Err(SegErr::Unbalanced { line }) | Err(SegErr::TooDeep { line }) => line,
            Err(SegErr::Memory) => return Err(RowErr::Memory),
        },
        Err(LexErr::Fault(fault)) => fault.line,
        Err(LexErr::Memory) => return Err(RowErr::Memory),
    };
    let mut told = Vec::new(alloc);
    add_number(&mut told, u64::from(line))?;
    Ok(told)
}
