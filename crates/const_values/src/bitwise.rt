//! `&`, `^` and `|` of two numbers or two booleans (JLS 15.22), `&&` and `||` (JLS 15.23, 15.24).
ghost use Rattle.std.specs.Prelude.{◌≡◌};
ghost use Rattle.const_values.specs.Bitwise as spec;

use crate::constant::{Constant, NoConstant, Outcome, of_boolean, of_int, of_long};
use crate::promotion::{Pair, promote_both};
use crate::{ints, longs};
use java_ast::BinOp;

pub(crate) fn bitwise(op: BinOp, left: &Constant, right: &Constant) -> Outcome
    ensures { result ≡ spec.bitwise op left.now right.now }
{
    match (left, right) {
        (Constant::Boolean(left), Constant::Boolean(right)) => of_boolean(logic(op, *left, *right)),
        _ => match promote_both(left, right) {
            Some(Pair::Ints(left, right)) => of_int(ints::bitwise(op, left, right)),
            Some(Pair::Longs(left, right)) => of_long(longs::bitwise(op, left, right)),
            None => Err(NoConstant::NotConst),
        },
    }
}

/// `&&` and `||` have the values of `&` and `|`, since both operands count.
pub(crate) fn conditional_logic(op: BinOp, left: &Constant, right: &Constant) -> Outcome
    ensures { result ≡ spec.conditional_logic op left.now right.now }
{
    match (left, right) {
        (Constant::Boolean(left), Constant::Boolean(right)) => of_boolean(logic(op, *left, *right)),
        _ => Err(NoConstant::NotConst),
    }
}

/// None for other operators.
fn logic(op: BinOp, left: bool, right: bool) -> Option<bool>
    ensures { result ≡ spec.logic op left right }
{
    match op {
        BinOp::And | BinOp::AndAnd => Some(left && right),
        BinOp::Or | BinOp::OrOr => Some(left || right),
        BinOp::Xor => Some(left != right),
        _ => None,
    }
}
