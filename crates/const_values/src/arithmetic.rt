//! `*`, `/`, `%`, `+` and `-` of numbers (JLS 15.17, 15.18.2).
ghost use Rattle.std.specs.Prelude.{◌≡◌};
ghost use Rattle.const_values.specs.Arithmetic as spec;

use crate::constant::{Constant, NoConstant, Outcome, of_int, of_long};
use crate::promotion::{Pair, promote_both};
use crate::{ints, longs};
use java_ast::BinOp;

pub(crate) fn arithmetic(op: BinOp, left: &Constant, right: &Constant) -> Outcome
    ensures { result ≡ spec.arithmetic op left.now right.now }
{
    match promote_both(left, right) {
        Some(Pair::Ints(left, right)) => of_int(ints::arithmetic(op, left, right)),
        Some(Pair::Longs(left, right)) => of_long(longs::arithmetic(op, left, right)),
        None => Err(NoConstant::NotConst),
    }
}
