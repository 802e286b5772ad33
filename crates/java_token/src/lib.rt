//! The tokens of Java (JLS 3.8 to 3.12).
#![tactic(auto)]

mod copy;
mod keyword;
mod operator;
mod token;

pub use keyword::Kw;
pub use operator::OpTok;
pub use token::{LexLit, Token, TokenKind};
