//! Outcomes as words: `5`, `5L`, `(byte)5`, `(short)5`, `(char)97`, `true`, `"text"`, and the
//! reasons by their names.
use const_values::{Constant, ConstantType, NoConstant, Outcome};
use hdr_core::Text;
use java_ast::{BinOp, Primitive, UnOp};
use std::process::Abort;

pub fn outcome<R: Abort + AllocGlobal>(rt: &R, word: &str) -> Outcome {
    match word.as_bytes() {
        b"NotConst" => Err(NoConstant::NotConst),
        b"Range" => Err(NoConstant::Range),
        b"TooLong" => Err(NoConstant::TooLong),
        b"Unsupported" => Err(NoConstant::Unsupported),
        b"true" => Ok(Constant::Boolean(true)),
        b"false" => Ok(Constant::Boolean(false)),
        _ => Ok(constant(rt, word)),
    }
}

fn constant<R: Abort + AllocGlobal>(rt: &R, word: &str) -> Constant {
    if let Some(text) = word.strip_prefix('"') {
        let text = text.strip_suffix('"').expect(rt, word);
        return Constant::Str(Text::of(rt.alloc(), text.as_bytes()).expect(rt, "memory"));
    }
    if let Some(digits) = word.strip_prefix("(byte)") {
        return Constant::Byte(digits.parse().expect(rt, word));
    }
    if let Some(digits) = word.strip_prefix("(short)") {
        return Constant::Short(digits.parse().expect(rt, word));
    }
    if let Some(digits) = word.strip_prefix("(char)") {
        return Constant::Char(digits.parse().expect(rt, word));
    }
    match word.strip_suffix('L') {
        Some(digits) => Constant::Long(digits.parse().expect(rt, word)),
        None => Constant::Int(word.parse().expect(rt, word)),
    }
}

pub fn binary_operator<R: Abort>(rt: &R, word: &str) -> BinOp {
    let operator = match word.as_bytes() {
        b"*" => Some(BinOp::Star),
        b"/" => Some(BinOp::Slash),
        b"%" => Some(BinOp::Percent),
        b"+" => Some(BinOp::Plus),
        b"-" => Some(BinOp::Minus),
        b"<<" => Some(BinOp::ShiftLeft),
        b">>" => Some(BinOp::ShiftRight),
        b">>>" => Some(BinOp::ShiftRightUnsigned),
        b"<" => Some(BinOp::Less),
        b"<=" => Some(BinOp::LessEqual),
        b">" => Some(BinOp::Greater),
        b">=" => Some(BinOp::GreaterEqual),
        b"==" => Some(BinOp::Equal),
        b"!=" => Some(BinOp::NotEqual),
        b"&" => Some(BinOp::And),
        b"^" => Some(BinOp::Xor),
        b"|" => Some(BinOp::Or),
        b"&&" => Some(BinOp::AndAnd),
        b"||" => Some(BinOp::OrOr),
        _ => None,
    };
    operator.expect(rt, word)
}

pub fn unary_operator<R: Abort>(rt: &R, word: &str) -> UnOp {
    let operator = match word.as_bytes() {
        b"+" => Some(UnOp::Plus),
        b"-" => Some(UnOp::Minus),
        b"~" => Some(UnOp::Complement),
        b"!" => Some(UnOp::Not),
        _ => None,
    };
    operator.expect(rt, word)
}

pub fn primitive<R: Abort>(rt: &R, word: &str) -> Primitive {
    let ty = match word.as_bytes() {
        b"boolean" => Some(Primitive::Boolean),
        b"byte" => Some(Primitive::Byte),
        b"short" => Some(Primitive::Short),
        b"int" => Some(Primitive::Int),
        b"long" => Some(Primitive::Long),
        b"char" => Some(Primitive::Char),
        b"float" => Some(Primitive::Float),
        b"double" => Some(Primitive::Double),
        _ => None,
    };
    ty.expect(rt, word)
}

pub fn constant_type<R: Abort>(rt: &R, word: &str) -> ConstantType {
    match word.as_bytes() {
        b"String" => ConstantType::Text,
        _ => ConstantType::Primitive(primitive(rt, word)),
    }
}

pub fn words<'a, R: Abort + AllocGlobal>(rt: &R, row: &'a str) -> Vec<&'a str> {
    row.split_whitespace()
        .collect(rt.alloc())
        .expect(rt, "memory")
}
