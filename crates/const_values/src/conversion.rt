//! Casts (JLS 5.1.2, 5.1.3, 5.5, 15.16), and the conversion to a field's type (JLS 5.2).
ghost use Rattle.std.specs.Prelude.{◌≡◌};
ghost use Rattle.const_values.specs.Conversion as spec;

use crate::constant::{Constant, ConstantType, NoConstant, Outcome};
use crate::promotion::{Promoted, number_of, promote};
use java_ast::Primitive;

/// A cast to a primitive type. A narrowing one keeps the lowest bits.
pub fn cast(ty: Primitive, operand: Outcome) -> Outcome
    ensures { result ≡ spec.cast ty operand }
{
    match operand {
        Ok(constant) => cast_constant(ty, &constant),
        Err(reason) => Err(reason),
    }
}

pub(crate) fn cast_constant(ty: Primitive, constant: &Constant) -> Outcome
    ensures { result ≡ spec.cast_constant ty constant.now }
{
    match (ty, constant) {
        (Primitive::Boolean, Constant::Boolean(value)) => Ok(Constant::Boolean(*value)),
        _ => match number_of(constant) {
            Some(number) => narrowed(ty, number),
            None => Err(NoConstant::NotConst),
        },
    }
}

/// The lowest bits of the number, as a number of the type (JLS 5.1.3).
fn narrowed(ty: Primitive, number: i64) -> Outcome
    ensures { result ≡ spec.narrowed ty number }
{
    match ty {
        Primitive::Boolean => Err(NoConstant::NotConst),
        Primitive::Byte => Ok(Constant::Byte((number.rem_euclid(0x100) as u8).cast_signed())),
        Primitive::Short => Ok(Constant::Short((number.rem_euclid(0x1_0000) as u16).cast_signed())),
        Primitive::Char => Ok(Constant::Char(number.rem_euclid(0x1_0000) as u16)),
        Primitive::Int => Ok(Constant::Int(
            (number.rem_euclid(0x1_0000_0000) as u32).cast_signed(),
        )),
        Primitive::Long => Ok(Constant::Long(number)),
        Primitive::Float | Primitive::Double => Err(NoConstant::Unsupported),
    }
}

/// The value that a field of the type is initialised with (JLS 5.2). The type is the constant's or
/// a wider one; or it is byte, short or char, has the number, and the constant is no long. None
/// for other types. A float or double field is Unsupported.
pub fn converted(outcome: Outcome, ty: ConstantType) -> Option<Outcome>
    ensures { result ≡ spec.converted outcome ty }
{
    match outcome {
        Ok(constant) => converted_constant(constant, ty),
        Err(reason) => Some(Err(reason)),
    }
}

fn converted_constant(constant: Constant, ty: ConstantType) -> Option<Outcome>
    ensures { result ≡ spec.converted_constant constant ty }
{
    match ty {
        ConstantType::Text => match constant {
            Constant::Str(text) => Some(Ok(Constant::Str(text))),
            _ => None,
        },
        ConstantType::Primitive(Primitive::Float | Primitive::Double) => {
            Some(Err(NoConstant::Unsupported))
        }
        ConstantType::Primitive(ty) => Some(Ok(fitting(ty, &constant)?)),
    }
}

fn fitting(ty: Primitive, constant: &Constant) -> Option<Constant>
    ensures { result ≡ spec.fitting ty constant.now }
{
    match (ty, constant) {
        (Primitive::Boolean, Constant::Boolean(value)) => Some(Constant::Boolean(*value)),
        _ => fitting_number(ty, promote(constant)?),
    }
}

/// A long is none of the narrower types, even where its number fits.
fn fitting_number(ty: Primitive, number: Promoted) -> Option<Constant>
    ensures { result ≡ spec.fitting_number ty number }
{
    match number {
        Promoted::Int(number) => fitting_int(ty, number),
        Promoted::Long(number) => match ty {
            Primitive::Long => Some(Constant::Long(number)),
            _ => None,
        },
    }
}

/// The number as one of the type. None where the type has no such number.
pub(crate) fn fitting_int(ty: Primitive, number: i32) -> Option<Constant>
    ensures { result ≡ spec.fitting_int ty number }
{
    match ty {
        Primitive::Byte if -0x80 <= number && number < 0x80 => Some(Constant::Byte(number as i8)),
        Primitive::Short if -0x8000 <= number && number < 0x8000 => {
            Some(Constant::Short(number as i16))
        }
        Primitive::Char if 0 <= number && number < 0x1_0000 => Some(Constant::Char(number as u16)),
        Primitive::Int => Some(Constant::Int(number)),
        Primitive::Long => Some(Constant::Long(i64::from(number))),
        _ => None,
    }
}
