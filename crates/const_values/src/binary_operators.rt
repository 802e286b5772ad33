//! Binary operators (JLS 15.17 to 15.24).
ghost use Rattle.std.specs.Prelude.{◌≡◌, IfOk};
ghost use Rattle.const_values.specs.Binary as spec;

use crate::arithmetic::arithmetic;
use crate::bitwise::{bitwise, conditional_logic};
use crate::comparison::{equality, ordering};
use crate::concatenation::concatenation;
use crate::constant::{Constant, Outcome};
use crate::shift::shift;
use hdr_core::Memory;
use java_ast::BinOp;
use std::alloc::Global;

/// Both operands count, also for `&&` and `||`. Only a `+` with a text takes memory: a text on the
/// left grows where it lies, so that a long sum takes linear time.
pub fn binary(alloc: Global, op: BinOp, left: Outcome, right: Outcome) -> Result<Outcome, Memory>
    ensures { IfOk result (λ outcome. outcome ≡ spec.binary op left right) }
{
    match (left, right) {
        (Ok(left), Ok(right)) => binary_constants(alloc, op, left, &right),
        (Ok(_), Err(reason)) => Ok(Err(reason)),
        (Err(reason), right) => Ok(Err(reason.or_earlier(&right))),
    }
}

fn binary_constants(
    alloc: Global,
    op: BinOp,
    left: Constant,
    right: &Constant,
) -> Result<Outcome, Memory>
    ensures { IfOk result (λ outcome. outcome ≡ spec.binary_constants op left right.now) }
{
    match op {
        BinOp::Plus if is_text(&left) || is_text(right) => concatenation(alloc, left, right),
        BinOp::Star | BinOp::Slash | BinOp::Percent | BinOp::Plus | BinOp::Minus => {
            Ok(arithmetic(op, &left, right))
        }
        BinOp::ShiftLeft | BinOp::ShiftRight | BinOp::ShiftRightUnsigned => {
            Ok(shift(op, &left, right))
        }
        BinOp::Less | BinOp::LessEqual | BinOp::Greater | BinOp::GreaterEqual => {
            Ok(ordering(op, &left, right))
        }
        BinOp::Equal | BinOp::NotEqual => Ok(equality(op, &left, right)),
        BinOp::And | BinOp::Xor | BinOp::Or => Ok(bitwise(op, &left, right)),
        BinOp::AndAnd | BinOp::OrOr => Ok(conditional_logic(op, &left, right)),
    }
}

fn is_text(constant: &Constant) -> bool
    ensures { result ≡ spec.is_text constant.now }
{
    matches!(constant, Constant::Str(_))
}
