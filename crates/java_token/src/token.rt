use crate::keyword::Kw;
use crate::operator::OpTok;
use hdr_core::Text;

/// A token, and the line on which it begins, from 1.
#[derive(Drop, PartialEq, Eq)]
pub struct Token {
    pub kind: TokenKind,
    pub line: u32,
}

#[derive(Drop, PartialEq, Eq)]
pub enum TokenKind {
    /// An identifier or a contextual keyword, as modified UTF-8 (JLS 3.8).
    Word(Text),
    Keyword(Kw),
    Lit(LexLit),
    Op(OpTok),
}

/// A literal (JLS 3.10). `true`, `false` and `null` are keywords here.
#[derive(Drop, PartialEq, Eq)]
pub enum LexLit {
    /// `value` is None above 64 bits.
    Int {
        value: Option<u64>,
        decimal: bool,
        long: bool,
    },
    Real {
        double: bool,
    },
    /// One UTF-16 unit.
    Char(u16),
    /// The text that a string literal or a text block stands for, as modified UTF-8.
    Str(Text),
}
