//! The token of a piece.
ghost use Rattle.std.specs.Prelude.{◌≡◌, IfOk};
ghost use Rattle.java_names.specs.ModifiedUtf8.{modified_utf8 as modified};
ghost use Rattle.java_lexer.specs.Escapes.{string_units};
ghost use Rattle.java_lexer.specs.Tokens.{token_of, word_of};

use crate::block::block_text;
use crate::escape::{between_quotes, character, unescape};
use crate::integer::{integer, real};
use crate::keyword::keyword;
use crate::kind::Kind;
use hdr_core::{Memory, Text};
use java_names::modified_utf8;
use java_token::{LexLit, TokenKind};
use std::alloc::Global;

/// The token that a piece of these units is, if it is one.
pub fn token(alloc: Global, kind: Kind, units: &[u16]) -> Result<Option<TokenKind>, Memory>
    ensures { IfOk result (λ token. token ≡ token_of kind units.now) }
{
    match kind {
        Kind::Blank => Ok(None),
        Kind::Word => Ok(Some(word(alloc, units)?)),
        Kind::Integer => Ok(Some(TokenKind::Lit(integer(units)))),
        Kind::FloatingPoint => Ok(Some(TokenKind::Lit(real(units)))),
        Kind::Character => Ok(Some(TokenKind::Lit(LexLit::Char(character(units))))),
        Kind::String => Ok(Some(TokenKind::Lit(LexLit::Str(string_text(alloc, units)?)))),
        Kind::TextBlock => Ok(Some(TokenKind::Lit(LexLit::Str(block_text(alloc, units)?)))),
        Kind::Operator(operator) => Ok(Some(TokenKind::Op(operator))),
    }
}

fn word(alloc: Global, units: &[u16]) -> Result<TokenKind, Memory>
    ensures { IfOk result (λ token. token ≡ word_of (modified units.now)) }
{
    let text = modified_utf8(alloc, units)?;
    match keyword(text.bytes()) {
        Some(keyword) => Ok(TokenKind::Keyword(keyword)),
        None => Ok(TokenKind::Word(text)),
    }
}

fn string_text(alloc: Global, units: &[u16]) -> Result<Text, Memory>
    ensures { IfOk result (λ text. text ≡ modified (string_units units.now)) }
{
    let plain = unescape(alloc, between_quotes(units))?;
    modified_utf8(alloc, plain.as_slice())
}
