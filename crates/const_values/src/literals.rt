//! Literals (JLS 3.10).
ghost use Rattle.std.specs.Prelude.{◌≡◌, ◌<◌, ◌≤◌, ◌^◌, ◌+◌, IfOk};
ghost use Rattle.const_values.specs.Literal as spec;

use crate::constant::{Constant, NoConstant, Outcome, of_text};
use crate::unary_operators::unary;
use crate::{ints, longs};
use hdr_core::Memory;
use java_ast::{Lit, UnOp};
use std::alloc::Global;

/// What a literal stands for, or, where it is `negated`, what it stands for together with the
/// unary minus before it: the decimal literals 2147483648 and 9223372036854775808L are right only
/// there (JLS 3.10.1). Only a text takes memory.
pub fn literal(alloc: Global, literal: &Lit, negated: bool) -> Result<Outcome, Memory>
    ensures { IfOk result (λ outcome. outcome ≡ spec.literal literal.now negated) }
{
    let plain = match literal {
        Lit::Int {
            value,
            decimal,
            long,
        } => return Ok(integer(*value, *decimal, *long, negated)),
        Lit::Real { double: _ } => Err(NoConstant::Unsupported),
        Lit::Char(unit) => Ok(Constant::Char(*unit)),
        Lit::Str(text) => of_text(text.copy(alloc)?),
        Lit::Bool(value) => Ok(Constant::Boolean(*value)),
        Lit::Null => Err(NoConstant::NotConst),
    };
    Ok(if negated {
        unary(UnOp::Minus, plain)
    } else {
        plain
    })
}

fn integer(value: Option<u64>, decimal: bool, long: bool, negated: bool) -> Outcome
    ensures { result ≡ spec.integer value decimal long negated }
{
    match value {
        Some(digits) if long => long_integer(digits, decimal, negated),
        Some(digits) => int_integer(digits, decimal, negated),
        None => Err(NoConstant::Range),
    }
}

fn int_integer(digits: u64, decimal: bool, negated: bool) -> Outcome
    ensures { result ≡ spec.int_integer digits decimal negated }
{
    if digits <= greatest(decimal, negated, 1 << 31) {
        Ok(Constant::Int(ints::from_bits(digits as u32, negated)))
    } else {
        Err(NoConstant::Range)
    }
}

fn long_integer(digits: u64, decimal: bool, negated: bool) -> Outcome
    ensures { result ≡ spec.long_integer digits decimal negated }
{
    if digits <= greatest(decimal, negated, 1 << 63) {
        Ok(Constant::Long(longs::from_bits(digits, negated)))
    } else {
        Err(NoConstant::Range)
    }
}

/// The greatest literal of a type with this many numbers that aren't negative. One that isn't
/// decimal may use the sign's bit too.
fn greatest(decimal: bool, negated: bool, half: u64) -> u64
    requires { (0 < half) × (half ≤ 2 ^ 63) }
    ensures value { result ≡ spec.greatest decimal negated half }
    ensures bound { result < half + half }
{
    match (decimal, negated) {
        (true, true) => half,
        (true, false) => half - 1,
        (false, _) => half - 1 + half,
    }
}
