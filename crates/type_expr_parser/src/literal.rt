//! Literals (JLS 3.10) and class literals (JLS 15.8.2).
ghost use Rattle.std.specs.Prelude.{◌≡◌};
ghost use Rattle.java_grammar.specs.Expressions.{literal_of};
ghost use Rattle.type_expr_parser.specs.Reading.{Gives, Found, Makes};
ghost use Rattle.type_expr_parser.specs.Literals.{literal_in, literal_at, class_literal_at};
ghost use Rattle.type_expr_parser.specs.Literals.{primitive_class_at, void_class_at, named_at};
ghost use Rattle.type_expr_parser.specs.Literals.{behind_name as behind_name_at};

use crate::error::Unread;
use crate::name::{bracket_pairs, plain_type, qualified_name, with_dims};
use crate::tokens::{comes, front_line, sign, token};
use hdr_core::{List, Text};
use java_ast::{Expr, Lit, Primitive, TypeTree};
use java_grammar::{Reader, Sign};
use java_token::{Kw, LexLit, TokenKind};
use std::alloc::Global;

fn lexed_literal(alloc: Global, literal: &LexLit) -> Result<Lit, Unread>
    ensures { Makes result (literal_of literal.now) }
{
    match literal {
        LexLit::Int {
            value,
            decimal,
            long,
        } => Ok(Lit::Int {
            value: *value,
            decimal: *decimal,
            long: *long,
        }),
        LexLit::Real { double } => Ok(Lit::Real { double: *double }),
        LexLit::Char(unit) => Ok(Lit::Char(*unit)),
        LexLit::Str(text) => Ok(Lit::Str(text.copy(alloc)?)),
    }
}

/// What literal a token is.
fn literal_in(alloc: Global, kind: &TokenKind) -> Result<Lit, Unread>
    ensures { Found result (literal_in kind.now) }
{
    match kind {
        TokenKind::Lit(literal) => lexed_literal(alloc, literal),
        TokenKind::Keyword(Kw::True) => Ok(Lit::Bool(true)),
        TokenKind::Keyword(Kw::False) => Ok(Lit::Bool(false)),
        TokenKind::Keyword(Kw::Null) => Ok(Lit::Null),
        _ => Err(Unread::NotSpelled),
    }
}

#[tactic(auto, unfolding(crate::specs::Literals::literal_at))]
pub fn literal(alloc: Global, reader: &mut Reader<'_>) -> Result<Expr, Unread>
    ensures { Gives (λ expression. expression) result reader.new (literal_at reader.old) }
{
    let token = token(reader)?;
    Ok(Expr::Lit(literal_in(alloc, &token.kind)?))
}

/// Dimensions and `.class` behind a type.
#[tactic(auto, unfolding(crate::specs::Literals::class_literal_at))]
fn class_literal(
    alloc: Global,
    reader: &mut Reader<'_>,
    element: TypeTree,
    depth: u32,
) -> Result<Expr, Unread>
    ensures { Gives (λ expression. expression) result reader.new
        (class_literal_at element depth reader.old) }
{
    let dims = bracket_pairs(reader, depth)?;
    sign(reader, Sign::Dot)?;
    sign(reader, Sign::Class)?;
    Ok(Expr::ClassLit(with_dims(alloc, element, dims)?))
}

/// The class literal of this primitive type, which comes next, or of arrays of it.
#[tactic(auto, unfolding(crate::specs::Literals::primitive_class_at))]
pub fn primitive_class(
    alloc: Global,
    reader: &mut Reader<'_>,
    primitive: Primitive,
    depth: u32,
) -> Result<Expr, Unread>
    ensures { Gives (λ expression. expression) result reader.new
        (primitive_class_at primitive depth reader.old) }
{
    token(reader)?;
    class_literal(alloc, reader, TypeTree::Primitive(primitive), depth)
}

/// `void.class`
#[tactic(auto, unfolding(crate::specs::Literals::void_class_at))]
pub fn void_class(reader: &mut Reader<'_>) -> Result<Expr, Unread>
    ensures { Gives (λ expression. expression) result reader.new (void_class_at reader.old) }
{
    token(reader)?;
    sign(reader, Sign::Dot)?;
    sign(reader, Sign::Class)?;
    Ok(Expr::ClassLit(TypeTree::Void))
}

/// What begins with this name, which is read: its class literal where brackets or a dot follow.
#[tactic(auto, unfolding(crate::specs::Literals::behind_name))]
fn behind_name(
    alloc: Global,
    reader: &mut Reader<'_>,
    line: u32,
    words: List<Text>,
    depth: u32,
) -> Result<Expr, Unread>
    ensures { Gives (λ expression. expression) result reader.new
        (behind_name_at line words depth reader.old) }
{
    if comes(reader, Sign::LeftBracket) || comes(reader, Sign::Dot) {
        let element = plain_type(alloc, line, words.items())?;
        class_literal(alloc, reader, element, depth)
    } else {
        Ok(Expr::Name(words))
    }
}

/// A name, or its class literal.
#[tactic(auto, unfolding(crate::specs::Literals::named_at))]
pub fn named(alloc: Global, reader: &mut Reader<'_>, depth: u32) -> Result<Expr, Unread>
    ensures { Gives (λ expression. expression) result reader.new (named_at depth reader.old) }
{
    let line = front_line(reader);
    let words = qualified_name(alloc, reader, depth)?;
    behind_name(alloc, reader, line, words, depth)
}
