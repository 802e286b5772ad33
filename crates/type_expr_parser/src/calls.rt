//! The calls on whole lists of tokens.
ghost use Rattle.std.specs.Prelude.{◌≡◌, ◌<◌, ◌^◌, ◌+◌, ◌*◌, length};
ghost use Rattle.java_grammar.specs.Annotations.{AnnSpells};
ghost use Rattle.java_grammar.specs.Types.{TypeSpells};
ghost use Rattle.type_expr_parser.specs.Calls.{ExprAnswer, FrontAnswer};

use crate::annotation::annotation;
use crate::error::{ExprErr, Unread};
use crate::expression::expression;
use crate::parsed::Parsed;
use crate::place::{paired, place};
use crate::types::any_type;
use java_ast::{AnnTree, Expr, TypeTree};
use java_grammar::{Reader, expression_fits, tokens_fit};
use java_token::Token;
use std::alloc::Global;

/// How many items may stand in each other: no more than closing angles and other tokens.
fn deepest(tokens: &[Token]) -> u32
    requires { length tokens.now < 2 ^ 30 }
    ensures { result ≡ 3 * length tokens.now + 1 }
{
    3 * tokens.len() as u32 + 1
}

/// The longest type at the front of the tokens, with the annotations before it (JLS 4.1 to 4.5,
/// 10.1).
///
/// `TooDeep` comes exactly where the tokens pass a count, all of them counted; `NotSpelled` exactly
/// where they pass none and no front of them is a type.
pub fn type_of(alloc: Global, tokens: &[Token]) -> Result<Parsed<TypeTree>, ExprErr>
    requires { length tokens.now < 2 ^ 30 }
    ensures { FrontAnswer TypeSpells tokens.now result }
{
    if !tokens_fit(tokens) {
        return Err(ExprErr::TooDeep);
    }
    let cut = paired(tokens);
    let mut reader = Reader::of(&tokens[..cut]);
    match any_type(alloc, &mut reader, deepest(tokens)) {
        Ok(tree) => {
            let (used, part) = place(tokens, cut, &reader);
            Ok(Parsed { tree, used, part })
        }
        Err(Unread::NotSpelled) => Err(ExprErr::NotSpelled),
        Err(Unread::Memory) => Err(ExprErr::Memory),
    }
}

/// The longest annotation at the front of the tokens (JLS 9.7).
///
/// `TooDeep` comes exactly where the tokens pass a count, all of them counted; `NotSpelled` exactly
/// where they pass none and no front of them is an annotation.
pub fn annotation_of(alloc: Global, tokens: &[Token]) -> Result<Parsed<AnnTree>, ExprErr>
    requires { length tokens.now < 2 ^ 30 }
    ensures { FrontAnswer AnnSpells tokens.now result }
{
    if !tokens_fit(tokens) {
        return Err(ExprErr::TooDeep);
    }
    let cut = paired(tokens);
    let mut reader = Reader::of(&tokens[..cut]);
    match annotation(alloc, &mut reader, deepest(tokens)) {
        Ok(tree) => {
            let (used, part) = place(tokens, cut, &reader);
            Ok(Parsed { tree, used, part })
        }
        Err(Unread::NotSpelled) => Err(ExprErr::NotSpelled),
        Err(Unread::Memory) => Err(ExprErr::Memory),
    }
}

/// The expression that the tokens are (JLS 15.29, 15.8.2), all of them.
///
/// `TooDeep` comes exactly where the tokens pass a count, and `NotSpelled` exactly where they pass
/// none and are no expression.
pub fn const_expr_of(alloc: Global, tokens: &[Token]) -> Result<Expr, ExprErr>
    requires { length tokens.now < 2 ^ 30 }
    ensures { ExprAnswer tokens.now result }
{
    if !expression_fits(tokens) {
        return Err(ExprErr::TooDeep);
    }
    let mut reader = Reader::of(tokens);
    match expression(alloc, &mut reader, deepest(tokens)) {
        Ok(tree) => {
            if reader.is_at_end() {
                Ok(tree)
            } else {
                Err(ExprErr::NotSpelled)
            }
        }
        Err(Unread::NotSpelled) => Err(ExprErr::NotSpelled),
        Err(Unread::Memory) => Err(ExprErr::Memory),
    }
}
