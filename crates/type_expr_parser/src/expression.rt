//! Constant expressions (JLS 15.29), and class literals (JLS 15.8.2).
ghost use Rattle.std.specs.Prelude.{◌≡◌, ◌≤◌, Some};
ghost use Rattle.type_expr_parser.specs.declared.looseness.TheConstants.{LOOSEST};
ghost use Rattle.type_expr_parser.specs.Reading.{Gives, Makes, many};
ghost use Rattle.type_expr_parser.specs.Expressions.{Whole, Operand, nested_at, conditional_over};
ghost use Rattle.type_expr_parser.specs.Expressions.{chosen_over, chain_over, link_over};
ghost use Rattle.type_expr_parser.specs.Expressions.{chain_of as chain_of_links, unary_over};
ghost use Rattle.type_expr_parser.specs.Expressions.{prefixed_over, unprefixed_over, opened_over};
ghost use Rattle.type_expr_parser.specs.Expressions.{closed_primitive as closed_primitive_at};
ghost use Rattle.type_expr_parser.specs.Expressions.{primitive_cast_over, cast_over, grouped_over};
ghost use Rattle.type_expr_parser.specs.Expressions.{behind_name_over, is_word_part};
ghost use Rattle.type_expr_parser.specs.Expressions.{begins_unsigned};

use crate::error::Unread;
use crate::literal::{literal, named, primitive_class, void_class};
use crate::looseness::{LOOSEST, looseness, prefix_operator};
use crate::name::plain_type;
use crate::tokens::{comes, front_line, operator, sign, token};
use hdr_core::List;
use java_ast::{Expr, Link, Primitive, TypeTree, UnOp};
use java_grammar::{Pair, Part, Reader, Sign};
use sqlite_items::Boxed;
use std::alloc::Global;

/// An expression in which at most `depth` stand in each other.
#[cycle(expressions)]
#[tactic(auto, unfolding(crate::specs::Expressions::nested_at))]
pub fn expression(alloc: Global, reader: &mut Reader<'_>, depth: u32) -> Result<Expr, Unread>
    ensures { Gives (λ expression. expression) result reader.new
        (nested_at depth Whole reader.old) }
{
    if depth == 0 {
        return Err(Unread::NotSpelled);
    }
    conditional(alloc, reader, depth - 1)
}

/// The operand of a prefix operator or of a cast.
#[cycle(expressions)]
#[tactic(auto, unfolding(crate::specs::Expressions::nested_at))]
fn operand(alloc: Global, reader: &mut Reader<'_>, depth: u32) -> Result<Expr, Unread>
    ensures { Gives (λ expression. expression) result reader.new
        (nested_at depth Operand reader.old) }
{
    if depth == 0 {
        return Err(Unread::NotSpelled);
    }
    unary(alloc, reader, depth - 1)
}

/// An expression, in whose own at most `depth` stand in each other: JLS 15.25.
#[cycle(expressions)]
#[tactic(auto, unfolding(crate::specs::Expressions::conditional_over))]
pub fn conditional(alloc: Global, reader: &mut Reader<'_>, depth: u32) -> Result<Expr, Unread>
    ensures { Gives (λ expression. expression) result reader.new
        (conditional_over (nested_at depth) depth reader.old) }
{
    let test = chain(alloc, reader, LOOSEST, depth)?;
    if comes(reader, Sign::Question) {
        chosen(alloc, reader, test, depth)
    } else {
        Ok(test)
    }
}

/// What stands behind the test of `?`.
#[cycle(expressions)]
#[tactic(auto, unfolding(crate::specs::Expressions::chosen_over))]
fn chosen(alloc: Global, reader: &mut Reader<'_>, test: Expr, depth: u32) -> Result<Expr, Unread>
    ensures { Gives (λ expression. expression) result reader.new
        (chosen_over (nested_at depth) test reader.old) }
{
    sign(reader, Sign::Question)?;
    let chosen = Boxed::new(alloc, expression(alloc, reader, depth)?)?;
    sign(reader, Sign::Colon)?;
    let other = Boxed::new(alloc, expression(alloc, reader, depth)?)?;
    Ok(Expr::Cond(Boxed::new(alloc, test)?, chosen, other))
}

/// An expression whose binary operators, outside parentheses, bind at most so loosely.
#[cycle(expressions)]
#[tactic(auto, unfolding(crate::specs::Expressions::chain_over))]
fn chain(alloc: Global, reader: &mut Reader<'_>, loosest: u32, depth: u32) -> Result<Expr, Unread>
    requires { loosest ≤ LOOSEST }
    ensures { Gives (λ expression. expression) result reader.new
        (chain_over (nested_at depth) depth loosest reader.old) }
{
    if loosest == 0 {
        return unary(alloc, reader, depth);
    }
    let first = chain(alloc, reader, loosest - 1, depth)?;
    let links = links(alloc, reader, loosest - 1, depth)?;
    chain_of(alloc, first, links)
}

/// The first operand, with the others behind it if there are any.
fn chain_of(alloc: Global, first: Expr, rest: List<Link>) -> Result<Expr, Unread>
    ensures { Makes result (chain_of_links first rest) }
{
    if rest.is_empty() {
        return Ok(first);
    }
    Ok(Expr::Chain {
        first: Boxed::new(alloc, first)?,
        rest,
    })
}

/// Operators that bind one level more loosely than this, each with its right operand.
#[cycle(expressions)]
fn links(
    alloc: Global,
    reader: &mut Reader<'_>,
    loosest: u32,
    depth: u32,
) -> Result<List<Link>, Unread>
    requires { loosest ≤ LOOSEST }
    ensures { Gives (λ links. links) result reader.new
        (Some (many (link_over (chain_over (nested_at depth) depth loosest) loosest)
        depth reader.old)) }
{
    let mut links = Vec::new(alloc);
    for _ in 0..depth {
        let mut ahead = reader.fork();
        match link(alloc, &mut ahead, loosest, depth) {
            Ok(link) => links.push(link)?,
            Err(Unread::NotSpelled) => return Ok(List::of(links)),
            Err(Unread::Memory) => return Err(Unread::Memory),
        }
        *reader = ahead;
    }
    Ok(List::of(links))
}

#[cycle(expressions)]
#[tactic(auto, unfolding(crate::specs::Expressions::link_over))]
fn link(alloc: Global, reader: &mut Reader<'_>, loosest: u32, depth: u32) -> Result<Link, Unread>
    requires { loosest ≤ LOOSEST }
    ensures { Gives (λ link. link) result reader.new
        (link_over (chain_over (nested_at depth) depth loosest) loosest reader.old) }
{
    let op = operator(reader)?;
    if looseness(op) != loosest + 1 {
        return Err(Unread::NotSpelled);
    }
    let right = chain(alloc, reader, loosest, depth)?;
    Ok(Link { op, right })
}

/// JLS 15.15, 15.16.
#[cycle(expressions)]
#[tactic(auto, unfolding(crate::specs::Expressions::unary_over))]
fn unary(alloc: Global, reader: &mut Reader<'_>, depth: u32) -> Result<Expr, Unread>
    ensures { Gives (λ expression. expression) result reader.new
        (unary_over (nested_at depth) depth reader.old) }
{
    match prefix_operator(reader.part()) {
        Some(op) => prefixed(alloc, reader, op, depth),
        None => unprefixed(alloc, reader, depth),
    }
}

/// This prefix operator, which comes next, and its operand.
#[cycle(expressions)]
#[tactic(auto, unfolding(crate::specs::Expressions::prefixed_over))]
fn prefixed(alloc: Global, reader: &mut Reader<'_>, op: UnOp, depth: u32) -> Result<Expr, Unread>
    ensures { Gives (λ expression. expression) result reader.new
        (prefixed_over (nested_at depth) op reader.old) }
{
    token(reader)?;
    let operand = operand(alloc, reader, depth)?;
    Ok(Expr::Unary(op, Boxed::new(alloc, operand)?))
}

/// An expression that begins with no prefix operator: JLS 15.8, 15.16.
#[cycle(expressions)]
#[tactic(auto, unfolding(crate::specs::Expressions::unprefixed_over))]
fn unprefixed(alloc: Global, reader: &mut Reader<'_>, depth: u32) -> Result<Expr, Unread>
    ensures { Gives (λ expression. expression) result reader.new
        (unprefixed_over (nested_at depth) depth reader.old) }
{
    match reader.part() {
        Some(Part::Opening(Pair::Parentheses)) => opened(alloc, reader, depth),
        Some(Part::Word) => named(alloc, reader, depth),
        Some(Part::Sealed) => named(alloc, reader, depth),
        Some(Part::Literal) => literal(alloc, reader),
        Some(Part::Primitive(primitive)) => primitive_class(alloc, reader, primitive, depth),
        Some(Part::Void) => void_class(reader),
        _ => Err(Unread::NotSpelled),
    }
}

/// An expression in parentheses (JLS 15.8.5), or a cast.
#[cycle(expressions)]
#[tactic(auto, unfolding(crate::specs::Expressions::opened_over))]
fn opened(alloc: Global, reader: &mut Reader<'_>, depth: u32) -> Result<Expr, Unread>
    ensures { Gives (λ expression. expression) result reader.new
        (opened_over (nested_at depth) reader.old) }
{
    sign(reader, Sign::LeftParenthesis)?;
    match closed_primitive(reader) {
        Some(primitive) => primitive_cast(alloc, reader, primitive, depth),
        None => grouped(alloc, reader, depth),
    }
}

/// The primitive type that comes next with `)` behind it.
fn closed_primitive(reader: &Reader<'_>) -> Option<Primitive>
    ensures { result ≡ closed_primitive_at reader.now }
{
    match reader.part() {
        Some(Part::Primitive(primitive)) => {
            let mut ahead = reader.fork();
            ahead.token();
            if comes(&ahead, Sign::RightParenthesis) {
                Some(primitive)
            } else {
                None
            }
        }
        _ => None,
    }
}

/// Behind `(`: this primitive type, which comes next, `)` and an operand.
#[cycle(expressions)]
#[tactic(auto, unfolding(crate::specs::Expressions::primitive_cast_over))]
fn primitive_cast(
    alloc: Global,
    reader: &mut Reader<'_>,
    primitive: Primitive,
    depth: u32,
) -> Result<Expr, Unread>
    ensures { Gives (λ expression. expression) result reader.new
        (primitive_cast_over (nested_at depth) primitive reader.old) }
{
    token(reader)?;
    sign(reader, Sign::RightParenthesis)?;
    cast(alloc, reader, TypeTree::Primitive(primitive), depth)
}

/// Behind the type of a cast.
#[cycle(expressions)]
#[tactic(auto, unfolding(crate::specs::Expressions::cast_over))]
fn cast(alloc: Global, reader: &mut Reader<'_>, ty: TypeTree, depth: u32) -> Result<Expr, Unread>
    ensures { Gives (λ expression. expression) result reader.new
        (cast_over (nested_at depth) ty reader.old) }
{
    let operand = operand(alloc, reader, depth)?;
    Ok(Expr::Cast(ty, Boxed::new(alloc, operand)?))
}

/// Behind `(`: an expression and `)`, or the name of a cast.
#[cycle(expressions)]
#[tactic(auto, unfolding(crate::specs::Expressions::grouped_over))]
fn grouped(alloc: Global, reader: &mut Reader<'_>, depth: u32) -> Result<Expr, Unread>
    ensures { Gives (λ expression. expression) result reader.new
        (grouped_over (nested_at depth) reader.old) }
{
    let line = front_line(reader);
    let begins_with_word = is_word(reader.part());
    let inner = expression(alloc, reader, depth)?;
    sign(reader, Sign::RightParenthesis)?;
    if begins_with_word && begins_unsigned(reader.part()) {
        behind_name(alloc, reader, line, inner, depth)
    } else {
        Ok(inner)
    }
}

/// Behind an expression in parentheses that begins with a word, before what may be an operand:
/// where it is a name, it is a cast's.
#[cycle(expressions)]
#[tactic(auto, unfolding(crate::specs::Expressions::behind_name_over))]
fn behind_name(
    alloc: Global,
    reader: &mut Reader<'_>,
    line: u32,
    inner: Expr,
    depth: u32,
) -> Result<Expr, Unread>
    ensures { Gives (λ expression. expression) result reader.new
        (behind_name_over (nested_at depth) line inner reader.old) }
{
    match inner {
        Expr::Name(words) => {
            let ty = plain_type(alloc, line, words.items())?;
            cast(alloc, reader, ty, depth)
        }
        other => Ok(other),
    }
}

fn is_word(part: Option<Part>) -> bool
    ensures { result ≡ is_word_part part }
{
    match part {
        Some(part) => part.is_word(),
        None => false,
    }
}

/// An operand may begin so that begins with no sign.
fn begins_unsigned(part: Option<Part>) -> bool
    ensures { result ≡ begins_unsigned part }
{
    match part {
        Some(part) => matches!(
            &part,
            Part::Word
                | Part::Sealed
                | Part::Literal
                | Part::Primitive(_)
                | Part::Void
                | Part::Unary(_)
                | Part::Opening(Pair::Parentheses)
        ),
        None => false,
    }
}
