//! Tokens that are read from the front.
use java_ast::BinOp;
use java_grammar::{Edge, Part, Reader};
use java_lexer::{Token, lex};
use std::process::Abort;

fn tokens_of<R: Abort + AllocGlobal>(rt: &R, source: &[u8]) -> Vec<Token> {
    assert!(rt; source.len() <= 1_000_000);
    lex(rt.alloc(), source).ok().expect(rt, "tokens")
}

#[test]
fn angles_are_read_one_by_one(rt: HostRuntime) {
    let tokens = tokens_of(&rt, b"a >>> b > c");
    let mut reader = Reader::of(&tokens);
    assert!(rt; !reader.is_at_end());
    assert!(rt; reader.part() == Some(Part::Word));
    assert!(rt; !reader.angle());
    assert!(rt; reader.token().is_some());
    assert!(rt; reader.part().is_none());
    assert!(rt; reader.token().is_none());
    assert!(rt; reader.angle());
    assert!(rt; reader.angle());
    let (rest, taken, end) = reader.rest();
    assert!(rt; rest.len() == 4);
    assert!(rt; taken == 2);
    assert!(rt; end == Edge::Nothing);
    assert!(rt; reader.token().is_none());
    assert!(rt; reader.angle());
    assert!(rt; !reader.angle());
    assert!(rt; reader.token().is_some());
    assert!(rt; reader.angle());
    assert!(rt; reader.token().is_some());
    assert!(rt; reader.is_at_end());
    assert!(rt; reader.part().is_none());
    assert!(rt; !reader.angle());
}

#[test]
fn operators_are_read_whole(rt: HostRuntime) {
    let tokens = tokens_of(&rt, b"a >>> b >> + >");
    let mut reader = Reader::of(&tokens);
    assert!(rt; reader.operator().is_none());
    assert!(rt; reader.token().is_some());
    assert!(rt; reader.operator() == Some(BinOp::ShiftRightUnsigned));
    assert!(rt; reader.token().is_some());
    assert!(rt; reader.angle());
    assert!(rt; reader.operator() == Some(BinOp::Greater));
    assert!(rt; reader.operator() == Some(BinOp::Plus));
    assert!(rt; reader.operator() == Some(BinOp::Greater));
    assert!(rt; reader.operator().is_none());
    assert!(rt; reader.is_at_end());
}

#[test]
fn ends_are_read_behind_tokens(rt: HostRuntime) {
    let tokens = tokens_of(&rt, b"a");
    let mut reader = Reader::up_to(&tokens, Edge::Group);
    assert!(rt; !reader.group());
    assert!(rt; reader.token().is_some());
    assert!(rt; !reader.is_at_end());
    assert!(rt; reader.part().is_none());
    assert!(rt; !reader.semicolon());
    assert!(rt; reader.group());
    assert!(rt; reader.is_at_end());
    let mut reader = Reader::up_to(&[], Edge::Semicolon);
    assert!(rt; !reader.group());
    assert!(rt; reader.semicolon());
    assert!(rt; reader.is_at_end());
    assert!(rt; !reader.semicolon());
}
