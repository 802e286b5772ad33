//! The tokens of a Java source (JLS chapter 3).
#![tactic(auto)]

mod block;
mod cut;
mod escape;
mod fault;
mod form;
mod integer;
mod keyword;
mod kind;
mod laws;
mod lexer;
mod number;
mod operator;
mod quoted;
mod standing;
mod state;
mod token;
mod units;

pub use fault::{LexErr, LexFault, LexKind};
pub use java_token::{Kw, LexLit, OpTok, Token, TokenKind};
pub use laws::tokens_are_sound;
pub use lexer::{Lexer, lex};
pub use operator::OPERATORS;
