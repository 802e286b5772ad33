//! Trees written as texts: each operator in parentheses with its operands.
use crate::told::{add, add_number};
use hdr_core::{List, Text};
use java_ast::{
    AnnTree, ArgTree, BinOp, ElemArg, ElemTree, Expr, Link, Lit, NamePart, Primitive, TypeTree,
    UnOp,
};
use rows::RowErr;

fn write_words(told: &mut Vec<u8>, words: &List<Text>) -> Result<(), RowErr> {
    let mut between: &[u8] = b"";
    for word in words.items() {
        add(told, between)?;
        add(told, word.bytes())?;
        between = b".";
    }
    Ok(())
}

fn primitive_name(primitive: Primitive) -> &'static [u8] {
    match primitive {
        Primitive::Boolean => b"boolean",
        Primitive::Byte => b"byte",
        Primitive::Short => b"short",
        Primitive::Int => b"int",
        Primitive::Long => b"long",
        Primitive::Char => b"char",
        Primitive::Float => b"float",
        Primitive::Double => b"double",
    }
}

/// `A<B>.C`, and `[2]` behind an array's element.
#[cycle(write_type)]
pub fn write_type(told: &mut Vec<u8>, tree: &TypeTree) -> Result<(), RowErr> {
    match tree {
        TypeTree::Void => add(told, b"void"),
        TypeTree::Primitive(primitive) => add(told, primitive_name(*primitive)),
        TypeTree::Named { line: _, parts } => {
            let mut between: &[u8] = b"";
            for part in parts.items() {
                add(told, between)?;
                write_part(told, part)?;
                between = b".";
            }
            Ok(())
        }
        TypeTree::Array { element, dims } => {
            write_type(told, element.get())?;
            add(told, b"[")?;
            add_number(told, u64::from(*dims))?;
            add(told, b"]")
        }
    }
}

#[cycle(write_type)]
fn write_part(told: &mut Vec<u8>, part: &NamePart) -> Result<(), RowErr> {
    add(told, part.name.bytes())?;
    if let Some(args) = &part.args {
        add(told, b"<")?;
        let mut between: &[u8] = b"";
        for arg in args.items() {
            add(told, between)?;
            write_arg(told, arg)?;
            between = b",";
        }
        add(told, b">")?;
    }
    Ok(())
}

#[cycle(write_type)]
fn write_arg(told: &mut Vec<u8>, arg: &ArgTree) -> Result<(), RowErr> {
    match arg {
        ArgTree::Exact(tree) => write_type(told, tree),
        ArgTree::Extends(tree) => {
            add(told, b"? extends ")?;
            write_type(told, tree)
        }
        ArgTree::Super(tree) => {
            add(told, b"? super ")?;
            write_type(told, tree)
        }
        ArgTree::Any => add(told, b"?"),
    }
}

fn prefix_text(op: UnOp) -> &'static [u8] {
    match op {
        UnOp::Plus => b"+",
        UnOp::Minus => b"-",
        UnOp::Complement => b"~",
        UnOp::Not => b"!",
    }
}

fn operator_text(op: BinOp) -> &'static [u8] {
    match op {
        BinOp::Star => b"*",
        BinOp::Slash => b"/",
        BinOp::Percent => b"%",
        BinOp::Plus => b"+",
        BinOp::Minus => b"-",
        BinOp::ShiftLeft => b"<<",
        BinOp::ShiftRight => b">>",
        BinOp::ShiftRightUnsigned => b">>>",
        BinOp::Less => b"<",
        BinOp::LessEqual => b"<=",
        BinOp::Greater => b">",
        BinOp::GreaterEqual => b">=",
        BinOp::Equal => b"==",
        BinOp::NotEqual => b"!=",
        BinOp::And => b"&",
        BinOp::Xor => b"^",
        BinOp::Or => b"|",
        BinOp::AndAnd => b"&&",
        BinOp::OrOr => b"||",
    }
}

fn write_literal(told: &mut Vec<u8>, literal: &Lit) -> Result<(), RowErr> {
    match literal {
        Lit::Int {
            value,
            decimal: _,
            long: _,
        } => add_number(told, value.unwrap_or(0)),
        Lit::Real { double: _ } => add(told, b"real"),
        Lit::Char(_) => add(told, b"character"),
        Lit::Str(string) => {
            add(told, b"\"")?;
            add(told, string.bytes())?;
            add(told, b"\"")
        }
        Lit::Bool(value) => add(told, if *value { b"true" } else { b"false" }),
        Lit::Null => add(told, b"null"),
    }
}

#[cycle(write_expression)]
pub fn write_expression(told: &mut Vec<u8>, tree: &Expr) -> Result<(), RowErr> {
    match tree {
        Expr::Lit(literal) => write_literal(told, literal),
        Expr::Name(words) => write_words(told, words),
        Expr::ClassLit(of) => {
            add(told, b"class ")?;
            write_type(told, of)
        }
        Expr::Unary(op, operand) => {
            add(told, b"(")?;
            add(told, prefix_text(*op))?;
            write_expression(told, operand.get())?;
            add(told, b")")
        }
        Expr::Chain { first, rest } => {
            add(told, b"(")?;
            write_expression(told, first.get())?;
            for link in rest.items() {
                write_link(told, link)?;
            }
            add(told, b")")
        }
        Expr::Cond(test, chosen, other) => {
            add(told, b"(")?;
            write_expression(told, test.get())?;
            add(told, b"?")?;
            write_expression(told, chosen.get())?;
            add(told, b":")?;
            write_expression(told, other.get())?;
            add(told, b")")
        }
        Expr::Cast(to, operand) => {
            add(told, b"([")?;
            write_type(told, to)?;
            add(told, b"]")?;
            write_expression(told, operand.get())?;
            add(told, b")")
        }
    }
}

#[cycle(write_expression)]
fn write_link(told: &mut Vec<u8>, link: &Link) -> Result<(), RowErr> {
    add(told, operator_text(link.op))?;
    write_expression(told, &link.right)
}

/// `@A.B(x=1,y={2,3})`
#[cycle(write_annotation)]
pub fn write_annotation(told: &mut Vec<u8>, tree: &AnnTree) -> Result<(), RowErr> {
    add(told, b"@")?;
    write_words(told, &tree.names)?;
    add(told, b"(")?;
    let mut between: &[u8] = b"";
    for arg in tree.args.items() {
        add(told, between)?;
        write_element(told, arg)?;
        between = b",";
    }
    add(told, b")")
}

#[cycle(write_annotation)]
fn write_element(told: &mut Vec<u8>, arg: &ElemArg) -> Result<(), RowErr> {
    add(told, arg.name.bytes())?;
    add(told, b"=")?;
    write_value(told, &arg.value)
}

#[cycle(write_annotation)]
fn write_value(told: &mut Vec<u8>, value: &ElemTree) -> Result<(), RowErr> {
    match value {
        ElemTree::Value(expression) => write_expression(told, expression),
        ElemTree::Ann(annotation) => write_annotation(told, annotation),
        ElemTree::List(values) => {
            add(told, b"{")?;
            let mut between: &[u8] = b"";
            for value in values.items() {
                add(told, between)?;
                write_value(told, value)?;
                between = b",";
            }
            add(told, b"}")
        }
    }
}
