//! Unary operators (JLS 15.15.3 to 15.15.6).
ghost use Rattle.std.specs.Prelude.{◌≡◌};
ghost use Rattle.const_values.specs.Unary as spec;

use crate::constant::{Constant, NoConstant, Outcome, of_int, of_long};
use crate::promotion::{Promoted, promote};
use crate::{ints, longs};
use java_ast::UnOp;

/// `+`, `-` and `~` of a number, which is promoted, and `!` of a boolean.
pub fn unary(op: UnOp, operand: Outcome) -> Outcome
    ensures { result ≡ spec.unary op operand }
{
    match operand {
        Ok(constant) => unary_constant(op, &constant),
        Err(reason) => Err(reason),
    }
}

fn unary_constant(op: UnOp, constant: &Constant) -> Outcome
    ensures { result ≡ spec.unary_constant op constant.now }
{
    match (op, constant) {
        (UnOp::Not, Constant::Boolean(value)) => Ok(Constant::Boolean(!*value)),
        _ => match promote(constant) {
            Some(Promoted::Int(number)) => of_int(ints::unary(op, number)),
            Some(Promoted::Long(number)) => of_long(longs::unary(op, number)),
            None => Err(NoConstant::NotConst),
        },
    }
}
