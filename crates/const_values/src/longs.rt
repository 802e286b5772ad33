//! Operators on longs, whose results wrap (JLS 4.2.2). None for operators of another family.
ghost use Rattle.std.specs.Prelude.{◌≡◌};
ghost use Rattle.std.specs.Int.{w64};
ghost use Rattle.const_values.specs.Arithmetic.{arithmetic_at};
ghost use Rattle.const_values.specs.Numbers.{wrapped};
ghost use Rattle.const_values.specs.Literal.{signed};
ghost use Rattle.const_values.specs.Bitwise.{bitwise_at};
ghost use Rattle.const_values.specs.Shift.{shift_at};
ghost use Rattle.const_values.specs.Unary.{unary_number};

use java_ast::{BinOp, UnOp};

/// The number of these bits, or its negation, which wraps (JLS 15.15.4).
pub(crate) fn from_bits(bits: u64, negated: bool) -> i64
    ensures { result ≡ wrapped w64 (signed negated bits) }
{
    if negated {
        bits.cast_signed().wrapping_neg()
    } else {
        bits.cast_signed()
    }
}

/// The negation wraps: that of the least long is itself (JLS 15.15.4).
pub(crate) fn unary(op: UnOp, number: i64) -> Option<i64>
    ensures { result ≡ unary_number w64 op number }
{
    match op {
        UnOp::Plus => Some(number),
        UnOp::Minus => Some(number.wrapping_neg()),
        UnOp::Complement => Some(!number),
        UnOp::Not => None,
    }
}

/// The same for longs.
pub(crate) fn arithmetic(op: BinOp, left: i64, right: i64) -> Option<i64>
    ensures { result ≡ arithmetic_at w64 op left right }
{
    match op {
        BinOp::Star => Some(left.wrapping_mul(right)),
        BinOp::Slash if right != 0 => Some(left.wrapping_div(right)),
        BinOp::Percent if right != 0 => Some(left.wrapping_rem(right)),
        BinOp::Plus => Some(left.wrapping_add(right)),
        BinOp::Minus => Some(left.wrapping_sub(right)),
        _ => None,
    }
}

/// Of the count the lowest six bits, also of a negative one. None for other operators.
pub(crate) fn shift(op: BinOp, number: i64, count: i64) -> Option<i64>
    ensures { result ≡ shift_at w64 op number count }
{
    let distance = count.rem_euclid(64) as u32;
    match op {
        BinOp::ShiftLeft => Some(number << distance),
        BinOp::ShiftRight => Some(number >> distance),
        BinOp::ShiftRightUnsigned => Some((number.cast_unsigned() >> distance).cast_signed()),
        _ => None,
    }
}

/// None for other operators.
pub(crate) fn bitwise(op: BinOp, left: i64, right: i64) -> Option<i64>
    ensures { result ≡ bitwise_at w64 op left right }
{
    match op {
        BinOp::And => Some(left & right),
        BinOp::Xor => Some(left ^ right),
        BinOp::Or => Some(left | right),
        _ => None,
    }
}
