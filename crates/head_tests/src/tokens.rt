//! The tokens of a text.
use java_lexer::Lexer;
use java_token::Token;
use std::process::Abort;

pub fn tokens_of<R: Abort + AllocGlobal>(rt: &R, source: &[u8]) -> Vec<Token> {
    assert!(rt; source.len() <= 1_000_000);
    let mut lexer = Lexer::start(rt.alloc());
    let mut tokens = lexer.feed(rt.alloc(), source).ok().expect(rt, "tokens");
    let mut rest = lexer.finish(rt.alloc()).ok().expect(rt, "tokens");
    tokens.append(&mut rest).expect(rt, "memory");
    tokens
}
