//! Constants in class files (JVMS 4.7.2).
ghost use Rattle.std.specs.Prelude.{◌≡◌, false, ℕ, List, Some, IfOk};
ghost use Rattle.const_values.specs.ClassFile as spec;

use crate::constant::{Constant, ConstantType, NoConstant, Outcome, of_text};
use crate::conversion::fitting_int;
use class_desc::Value;
use java_ast::Primitive;

/// The descriptors of the primitive types (JVMS table 4.3-A).
const PRIMITIVE_DESCRIPTORS: [(u8, Primitive); 8] = [
    (b'Z', Primitive::Boolean),
    (b'B', Primitive::Byte),
    (b'S', Primitive::Short),
    (b'C', Primitive::Char),
    (b'I', Primitive::Int),
    (b'J', Primitive::Long),
    (b'F', Primitive::Float),
    (b'D', Primitive::Double),
];

const STRING_DESCRIPTOR: &[u8] = b"Ljava/lang/String;";

/// The constant of a class file that stands for the value. A boolean is 1 or 0.
pub fn written(constant: Constant) -> Value
    ensures value { result ≡ spec.written constant }
    // A field of the constant's type holds it.
    ensures held { (descriptor : List ℕ)
        → spec.type_of descriptor ≡ Some (spec.type_of_constant constant)
        → spec.constant_of descriptor result ≡ spec.itself constant }
{
    match constant {
        Constant::Boolean(value) => Value::Integer(i32::from(value)),
        Constant::Byte(number) => Value::Integer(i32::from(number)),
        Constant::Short(number) => Value::Integer(i32::from(number)),
        Constant::Char(unit) => Value::Integer(i32::from(unit)),
        Constant::Int(number) => Value::Integer(number),
        Constant::Long(number) => Value::Long(number),
        Constant::Str(text) => Value::Str(text),
    }
}

/// What a field of this descriptor holds whose ConstantValue is the value. A boolean is true for
/// whatever isn't 0. NotConst for a value or a descriptor of another kind, and for a number that
/// the type doesn't have.
pub fn constant_of(descriptor: &[u8], value: Value) -> Outcome
    ensures value { result ≡ spec.constant_of descriptor.now value }
    ensures written { IfOk result (λ constant.
        spec.is_boolean constant ≡ false → spec.written constant ≡ value) }
{
    match type_of(descriptor) {
        Some(ty) => held(ty, value),
        None => Err(NoConstant::NotConst),
    }
}

fn held(ty: ConstantType, value: Value) -> Outcome
    ensures { result ≡ spec.held ty value }
{
    match value {
        Value::Integer(number) => match ty {
            ConstantType::Primitive(ty) => held_int(ty, number),
            ConstantType::Text => Err(NoConstant::NotConst),
        },
        Value::Long(number) => match ty {
            ConstantType::Primitive(Primitive::Long) => Ok(Constant::Long(number)),
            _ => Err(NoConstant::NotConst),
        },
        Value::Raw32(_) => match ty {
            ConstantType::Primitive(Primitive::Float) => Err(NoConstant::Unsupported),
            _ => Err(NoConstant::NotConst),
        },
        Value::Raw64(_) => match ty {
            ConstantType::Primitive(Primitive::Double) => Err(NoConstant::Unsupported),
            _ => Err(NoConstant::NotConst),
        },
        Value::Str(text) => match ty {
            ConstantType::Text => of_text(text),
            ConstantType::Primitive(_) => Err(NoConstant::NotConst),
        },
    }
}

fn held_int(ty: Primitive, number: i32) -> Outcome
    ensures { result ≡ spec.held_int ty number }
{
    match ty {
        Primitive::Boolean => Ok(Constant::Boolean(number != 0)),
        Primitive::Byte | Primitive::Short | Primitive::Char | Primitive::Int => {
            match fitting_int(ty, number) {
                Some(constant) => Ok(constant),
                None => Err(NoConstant::NotConst),
            }
        }
        Primitive::Long | Primitive::Float | Primitive::Double => Err(NoConstant::NotConst),
    }
}

/// The type of a field with this descriptor (JVMS 4.3.2). None where it has no ConstantValue.
fn type_of(descriptor: &[u8]) -> Option<ConstantType>
    ensures { result ≡ spec.type_of descriptor.now }
{
    match descriptor {
        [letter] => Some(ConstantType::Primitive(primitive_of(*letter)?)),
        _ if descriptor == STRING_DESCRIPTOR => Some(ConstantType::Text),
        _ => None,
    }
}

fn primitive_of(letter: u8) -> Option<Primitive>
    ensures { result ≡ spec.primitive_of letter }
{
    let row = PRIMITIVE_DESCRIPTORS.iter().find(|row| row.0 == letter)?;
    Some(row.1)
}
