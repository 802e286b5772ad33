//! Numeric promotion (JLS 5.6).
ghost use Rattle.std.specs.Prelude.{◌≡◌};
ghost use Rattle.const_values.specs.Promotion as spec;

use crate::constant::Constant;

/// A number after unary numeric promotion.
#[derive(Clone, Copy)]
pub(crate) enum Promoted {
    Int(i32),
    Long(i64),
}

/// Two numbers of one type, after binary numeric promotion.
#[derive(Clone, Copy)]
pub(crate) enum Pair {
    Ints(i32, i32),
    Longs(i64, i64),
}

/// None for a boolean and for a text.
pub(crate) fn promote(constant: &Constant) -> Option<Promoted>
    ensures { result ≡ spec.promoted constant.now }
{
    match constant {
        Constant::Byte(number) => Some(Promoted::Int(i32::from(*number))),
        Constant::Short(number) => Some(Promoted::Int(i32::from(*number))),
        Constant::Char(unit) => Some(Promoted::Int(i32::from(*unit))),
        Constant::Int(number) => Some(Promoted::Int(*number)),
        Constant::Long(number) => Some(Promoted::Long(*number)),
        Constant::Boolean(_) | Constant::Str(_) => None,
    }
}

/// None where one of the two is no number.
pub(crate) fn promote_both(left: &Constant, right: &Constant) -> Option<Pair>
    ensures { result ≡ spec.promoted_pair left.now right.now }
{
    match (promote(left)?, promote(right)?) {
        (Promoted::Int(left), Promoted::Int(right)) => Some(Pair::Ints(left, right)),
        (Promoted::Int(left), Promoted::Long(right)) => Some(Pair::Longs(i64::from(left), right)),
        (Promoted::Long(left), Promoted::Int(right)) => Some(Pair::Longs(left, i64::from(right))),
        (Promoted::Long(left), Promoted::Long(right)) => Some(Pair::Longs(left, right)),
    }
}

/// The number, which promotion doesn't change. None for a boolean and for a text.
pub(crate) fn number_of(constant: &Constant) -> Option<i64>
    ensures { result ≡ spec.number_of constant.now }
{
    match promote(constant)? {
        Promoted::Int(number) => Some(i64::from(number)),
        Promoted::Long(number) => Some(number),
    }
}
