//! `<`, `<=`, `>`, `>=` (JLS 15.20.1), `==` and `!=` (JLS 15.21).
ghost use Rattle.std.specs.Prelude.{◌≡◌};
ghost use Rattle.const_values.specs.Comparison as spec;

use crate::constant::{Constant, NoConstant, Outcome, of_boolean};
use crate::promotion::number_of;
use java_ast::BinOp;

pub(crate) fn ordering(op: BinOp, left: &Constant, right: &Constant) -> Outcome
    ensures { result ≡ spec.ordering op left.now right.now }
{
    match (number_of(left), number_of(right)) {
        (Some(left), Some(right)) => of_boolean(number_ordering(op, left, right)),
        _ => Err(NoConstant::NotConst),
    }
}

/// None for other operators.
fn number_ordering(op: BinOp, left: i64, right: i64) -> Option<bool>
    ensures { result ≡ spec.number_ordering op left right }
{
    match op {
        BinOp::Less => Some(left < right),
        BinOp::LessEqual => Some(left <= right),
        BinOp::Greater => Some(left > right),
        BinOp::GreaterEqual => Some(left >= right),
        _ => None,
    }
}

/// Two texts are compared by their bytes, since constant texts are interned (JLS 3.10.5, 15.29).
pub(crate) fn equality(op: BinOp, left: &Constant, right: &Constant) -> Outcome
    ensures { result ≡ spec.equality op left.now right.now }
{
    match (op, is_same(left, right)) {
        (BinOp::Equal, Some(same)) => Ok(Constant::Boolean(same)),
        (BinOp::NotEqual, Some(same)) => Ok(Constant::Boolean(!same)),
        _ => Err(NoConstant::NotConst),
    }
}

/// None where the operands are of different kinds.
fn is_same(left: &Constant, right: &Constant) -> Option<bool>
    ensures { result ≡ spec.is_same left.now right.now }
{
    match (left, right) {
        (Constant::Boolean(left), Constant::Boolean(right)) => Some(*left == *right),
        (Constant::Str(left), Constant::Str(right)) => Some(left == right),
        _ => Some(number_of(left)? == number_of(right)?),
    }
}
