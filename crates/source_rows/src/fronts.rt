//! Types and annotations at the front of tokens, and whole expressions.
use crate::told::{add, add_number};
use crate::trees::{write_annotation, write_expression, write_type};
use java_ast::TypeTree;
use java_grammar::Reader;
use java_lexer::Token;
use rows::RowErr;
use std::alloc::Global;
use type_expr_parser::{
    ExprErr, Unread, annotation_of, const_expr_of, read_annotation, read_type, type_of,
};

/// What stands for no tree.
fn no_tree(alloc: Global, error: Unread) -> Result<Vec<u8>, RowErr> {
    match error {
        Unread::NotSpelled => Ok(Vec::from_slice(alloc, b"none")?),
        Unread::Memory => Err(RowErr::Memory),
    }
}

/// What stands for no tree.
fn refused(alloc: Global, error: ExprErr) -> Result<Vec<u8>, RowErr> {
    match error {
        ExprErr::NotSpelled => Ok(Vec::from_slice(alloc, b"none")?),
        ExprErr::TooDeep => Ok(Vec::from_slice(alloc, b"too deep")?),
        ExprErr::Memory => Err(RowErr::Memory),
    }
}

fn number(alloc: Global, number: u32) -> Result<Vec<u8>, RowErr> {
    let mut told = Vec::new(alloc);
    add_number(&mut told, u64::from(number))?;
    Ok(told)
}

/// How many tokens stand in front of the rest, behind a blank.
fn add_passed(told: &mut Vec<u8>, tokens: &[Token], rest: &[Token]) -> Result<(), RowErr> {
    add(told, b" ")?;
    add_number(told, tokens.len().saturating_sub(rest.len()) as u64)
}

/// The longest type, its copy as the tree; how many whole tokens it has, and how many closing
/// angles of the next.
pub fn type_of_reader(alloc: Global, tokens: &[Token]) -> Result<Vec<u8>, RowErr> {
    if tokens.len() > 1_000 {
        return Err(RowErr::NoSubject);
    }
    let mut reader = Reader::of(tokens);
    match read_type(alloc, &mut reader, tokens.len() as u32 * 3) {
        Ok(tree) => {
            let (rest, angles, _) = reader.rest();
            let mut told = Vec::new(alloc);
            write_type(&mut told, &tree.copy(alloc)?)?;
            add_passed(&mut told, tokens, rest)?;
            add(&mut told, b" ")?;
            add_number(&mut told, angles as u64)?;
            Ok(told)
        }
        Err(error) => no_tree(alloc, error),
    }
}

/// The longest annotation, its copy as the tree; how many tokens it has.
pub fn annotation_of_reader(alloc: Global, tokens: &[Token]) -> Result<Vec<u8>, RowErr> {
    if tokens.len() > 1_000 {
        return Err(RowErr::NoSubject);
    }
    let mut reader = Reader::of(tokens);
    match read_annotation(alloc, &mut reader, tokens.len() as u32 * 3) {
        Ok(tree) => {
            let (rest, _, _) = reader.rest();
            let mut told = Vec::new(alloc);
            write_annotation(&mut told, &tree.copy(alloc)?)?;
            add_passed(&mut told, tokens, rest)?;
            Ok(told)
        }
        Err(error) => no_tree(alloc, error),
    }
}

/// The expression that the tokens are, its copy as the tree.
pub fn expression_of(alloc: Global, tokens: &[Token]) -> Result<Vec<u8>, RowErr> {
    if tokens.len() > 1_000_000 {
        return Err(RowErr::NoSubject);
    }
    match const_expr_of(alloc, tokens) {
        Ok(tree) => {
            let mut told = Vec::new(alloc);
            write_expression(&mut told, &tree.copy(alloc)?)?;
            Ok(told)
        }
        Err(error) => refused(alloc, error),
    }
}

/// How many whole tokens the longest type at the front has.
pub fn type_length(alloc: Global, tokens: &[Token]) -> Result<Vec<u8>, RowErr> {
    if tokens.len() > 1_000_000 {
        return Err(RowErr::NoSubject);
    }
    match type_of(alloc, tokens) {
        Ok(parsed) => number(alloc, parsed.used),
        Err(error) => refused(alloc, error),
    }
}

/// How many tokens the longest annotation at the front has.
pub fn annotation_length(alloc: Global, tokens: &[Token]) -> Result<Vec<u8>, RowErr> {
    if tokens.len() > 1_000_000 {
        return Err(RowErr::NoSubject);
    }
    match annotation_of(alloc, tokens) {
        Ok(parsed) => number(alloc, parsed.used),
        Err(error) => refused(alloc, error),
    }
}

/// The line of the type's name.
pub fn type_line(alloc: Global, tokens: &[Token]) -> Result<Vec<u8>, RowErr> {
    if tokens.len() > 1_000_000 {
        return Err(RowErr::NoSubject);
    }
    match type_of(alloc, tokens) {
        Ok(parsed) => match parsed.tree {
            TypeTree::Named { line, parts: _ } => number(alloc, line),
            _ => Err(RowErr::NoSubject),
        },
        Err(error) => refused(alloc, error),
    }
}

/// The line of the annotation.
pub fn annotation_line(alloc: Global, tokens: &[Token]) -> Result<Vec<u8>, RowErr> {
    if tokens.len() > 1_000_000 {
        return Err(RowErr::NoSubject);
    }
    match annotation_of(alloc, tokens) {
        Ok(parsed) => number(alloc, parsed.tree.line),
        Err(error) => refused(alloc, error),
    }
}
