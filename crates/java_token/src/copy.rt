ghost use Rattle.std.specs.Prelude.{◌≡◌, IfOk};

use crate::token::{LexLit, Token, TokenKind};
use hdr_core::{Memory, TryCopy};
use std::alloc::Global;

impl Token {
    pub fn copy(&self, alloc: Global) -> Result<Token, Memory>
        ensures { IfOk result (λ copy. copy ≡ self.now) }
    {
        Ok(Token {
            kind: self.kind.copy(alloc)?,
            line: self.line,
        })
    }
}

impl TokenKind {
    pub fn copy(&self, alloc: Global) -> Result<TokenKind, Memory>
        ensures { IfOk result (λ copy. copy ≡ self.now) }
    {
        match self {
            TokenKind::Word(name) => Ok(TokenKind::Word(name.copy(alloc)?)),
            TokenKind::Keyword(keyword) => Ok(TokenKind::Keyword(*keyword)),
            TokenKind::Lit(literal) => Ok(TokenKind::Lit(literal.copy(alloc)?)),
            TokenKind::Op(operator) => Ok(TokenKind::Op(*operator)),
        }
    }
}

impl LexLit {
    pub fn copy(&self, alloc: Global) -> Result<LexLit, Memory>
        ensures { IfOk result (λ copy. copy ≡ self.now) }
    {
        match self {
            LexLit::Int {
                value,
                decimal,
                long,
            } => Ok(LexLit::Int {
                value: *value,
                decimal: *decimal,
                long: *long,
            }),
            LexLit::Real { double } => Ok(LexLit::Real { double: *double }),
            LexLit::Char(unit) => Ok(LexLit::Char(*unit)),
            LexLit::Str(text) => Ok(LexLit::Str(text.copy(alloc)?)),
        }
    }
}

impl TryCopy for Token {
    fn try_copy(&self, alloc: Global) -> Result<Token, Memory> {
        self.copy(alloc)
    }
}
