//! `<<`, `>>` and `>>>` (JLS 15.19).
ghost use Rattle.std.specs.Prelude.{◌≡◌};
ghost use Rattle.const_values.specs.Shift as spec;

use crate::constant::{Constant, NoConstant, Outcome, of_int, of_long};
use crate::promotion::{Promoted, number_of, promote};
use crate::{ints, longs};
use java_ast::BinOp;

/// Each operand is promoted by itself; the result has the left one's type.
pub(crate) fn shift(op: BinOp, left: &Constant, right: &Constant) -> Outcome
    ensures { result ≡ spec.shift op left.now right.now }
{
    match (promote(left), number_of(right)) {
        (Some(Promoted::Int(number)), Some(count)) => of_int(ints::shift(op, number, count)),
        (Some(Promoted::Long(number)), Some(count)) => of_long(longs::shift(op, number, count)),
        _ => Err(NoConstant::NotConst),
    }
}
