//! Tokens and words.
ghost use Rattle.std.specs.Prelude.{◌≡◌, if◌then◌else◌};
ghost use Rattle.java_grammar.specs.Reading.{behind_mark};
ghost use Rattle.type_expr_parser.specs.Reading.{Gives, token_at, front_line, comes as comes_of};
ghost use Rattle.type_expr_parser.specs.Reading.{sign_at, word_at, operator_at};

use crate::error::Unread;
use hdr_core::Text;
use java_ast::BinOp;
use java_grammar::{Reader, Sign};
use java_token::{Token, TokenKind};
use std::alloc::Global;

/// The next token, which is no closing angle.
pub fn token<'a>(reader: &mut Reader<'a>) -> Result<&'a Token, Unread>
    ensures { Gives (λ token. token.now) result reader.new (token_at reader.old) }
{
    match reader.token() {
        Some(token) => Ok(token),
        None => Err(Unread::NotSpelled),
    }
}

/// The line of the next token; 0 where none comes.
pub fn front_line(reader: &Reader<'_>) -> u32
    ensures { result ≡ front_line reader.now }
{
    let mut ahead = reader.fork();
    match ahead.token() {
        Some(token) => token.line,
        None => 0,
    }
}

/// Whether this token comes next.
pub fn comes(reader: &Reader<'_>, sign: Sign) -> bool
    ensures { result ≡ comes_of sign reader.now }
{
    match reader.part() {
        Some(part) => sign.is(part),
        None => false,
    }
}

/// Whether this token came next; then it is read.
pub fn passes(reader: &mut Reader<'_>, sign: Sign) -> bool
    ensures is { result ≡ comes_of sign reader.old }
    ensures read { reader.new ≡ (if comes_of sign reader.old then behind_mark reader.old
        else reader.old) }
{
    if !comes(reader, sign) {
        return false;
    }
    match reader.token() {
        Some(_) => true,
        None => false,
    }
}

/// This token.
#[tactic(auto, unfolding(crate::specs::Reading::sign_at))]
pub fn sign(reader: &mut Reader<'_>, sign: Sign) -> Result<(), Unread>
    ensures { Gives (λ none. none) result reader.new (sign_at sign reader.old) }
{
    if !comes(reader, sign) {
        return Err(Unread::NotSpelled);
    }
    token(reader)?;
    Ok(())
}

/// A word.
#[tactic(auto, unfolding(crate::specs::Reading::word_at))]
pub fn word(alloc: Global, reader: &mut Reader<'_>) -> Result<Text, Unread>
    ensures { Gives (λ word. word) result reader.new (word_at reader.old) }
{
    let token = token(reader)?;
    match &token.kind {
        TokenKind::Word(name) => Ok(name.copy(alloc)?),
        _ => Err(Unread::NotSpelled),
    }
}

/// A binary operator.
pub fn operator(reader: &mut Reader<'_>) -> Result<BinOp, Unread>
    ensures { Gives (λ operator. operator) result reader.new (operator_at reader.old) }
{
    match reader.operator() {
        Some(operator) => Ok(operator),
        None => Err(Unread::NotSpelled),
    }
}
