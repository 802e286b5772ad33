//! `?` and `:` (JLS 15.25).
ghost use Rattle.std.specs.Prelude.{◌≡◌};
ghost use Rattle.const_values.specs.Conditional as spec;

use crate::constant::{Constant, ConstantType, NoConstant, Outcome};
use crate::conversion::{cast_constant, fitting_int};
use crate::promotion::{Pair, promote_both};
use java_ast::Primitive;

/// All three operands count, whichever is chosen. The chosen one is converted to the type that the
/// last two have in common.
pub fn conditional(test: Outcome, yes: Outcome, no: Outcome) -> Outcome
    ensures { result ≡ spec.conditional test yes no }
{
    match (test, yes, no) {
        (Ok(test), Ok(yes), Ok(no)) => choice(&test, yes, no),
        (Ok(_), Ok(_), Err(reason)) => Err(reason),
        (Ok(_), Err(reason), no) => Err(reason.or_earlier(&no)),
        (Err(reason), yes, no) => Err(reason.or_earlier(&yes).or_earlier(&no)),
    }
}

fn choice(test: &Constant, yes: Constant, no: Constant) -> Outcome
    ensures { result ≡ spec.choice test.now yes no }
{
    match test {
        Constant::Boolean(test) => {
            let ty = common_type(&yes, &no);
            of_type(ty, if *test { yes } else { no })
        }
        _ => Err(NoConstant::NotConst),
    }
}

/// The chosen operand as one of the common type, where there is one.
fn of_type(ty: Option<ConstantType>, chosen: Constant) -> Outcome
    ensures { result ≡ spec.of_type ty chosen }
{
    match ty {
        Some(ConstantType::Text) => Ok(chosen),
        Some(ConstantType::Primitive(ty)) => cast_constant(ty, &chosen),
        None => Err(NoConstant::NotConst),
    }
}

/// The type of a conditional expression. None where it is a class other than String (JLS 15.25).
fn common_type(yes: &Constant, no: &Constant) -> Option<ConstantType>
    ensures { result ≡ spec.common_type yes.now no.now }
{
    match (yes, no) {
        (Constant::Str(_), Constant::Str(_)) => Some(ConstantType::Text),
        _ => Some(ConstantType::Primitive(primitive_type(yes, no)?)),
    }
}

/// The primitive type of a conditional expression (JLS, tables 15.25-A to 15.25-E), where it has
/// one.
fn primitive_type(yes: &Constant, no: &Constant) -> Option<Primitive>
    ensures { result ≡ spec.primitive_type yes.now no.now }
{
    match (yes, no) {
        (Constant::Boolean(_), Constant::Boolean(_)) => Some(Primitive::Boolean),
        (Constant::Byte(_), Constant::Byte(_)) => Some(Primitive::Byte),
        (Constant::Char(_), Constant::Char(_)) => Some(Primitive::Char),
        (Constant::Short(_), Constant::Short(_) | Constant::Byte(_))
        | (Constant::Byte(_), Constant::Short(_)) => Some(Primitive::Short),
        (Constant::Byte(_), Constant::Int(number)) | (Constant::Int(number), Constant::Byte(_)) => {
            Some(narrow_or_int(Primitive::Byte, *number))
        }
        (Constant::Short(_), Constant::Int(number)) | (Constant::Int(number), Constant::Short(_)) =>
            { Some(narrow_or_int(Primitive::Short, *number)) }
        (Constant::Char(_), Constant::Int(number)) | (Constant::Int(number), Constant::Char(_)) => {
            Some(narrow_or_int(Primitive::Char, *number))
        }
        _ => promoted_type(yes, no),
    }
}

/// The narrow type, where the int constant fits it.
fn narrow_or_int(narrow: Primitive, number: i32) -> Primitive
    ensures { result ≡ spec.narrow_or_int narrow number }
{
    match fitting_int(narrow, number) {
        Some(_) => narrow,
        None => Primitive::Int,
    }
}

fn promoted_type(yes: &Constant, no: &Constant) -> Option<Primitive>
    ensures { result ≡ spec.promoted_type yes.now no.now }
{
    match promote_both(yes, no)? {
        Pair::Ints(_, _) => Some(Primitive::Int),
        Pair::Longs(_, _) => Some(Primitive::Long),
    }
}
