ghost use Rattle.std.specs.Prelude.{◌≡◌};
ghost use Rattle.segments.specs.Brackets.{mark_of, is_opening, is_closing};

use java_token::{OpTok, Token, TokenKind};

/// The pairs of brackets (JLS 3.11).
#[derive(Clone, Copy, PartialEq, Eq)]
pub enum Pair {
    Parentheses,
    Brackets,
    Braces,
}

/// What a token is among brackets.
#[derive(Clone, Copy)]
pub enum Mark {
    Opening(Pair),
    Closing(Pair),
    Plain,
}

impl Mark {
    #[tactic(auto, unfolding(crate::specs::Brackets::mark_of))]
    pub fn of(token: &Token) -> Mark
        ensures { result ≡ mark_of token.now }
    {
        match &token.kind {
            TokenKind::Op(operator) => match operator {
                OpTok::LeftParenthesis => Mark::Opening(Pair::Parentheses),
                OpTok::RightParenthesis => Mark::Closing(Pair::Parentheses),
                OpTok::LeftBracket => Mark::Opening(Pair::Brackets),
                OpTok::RightBracket => Mark::Closing(Pair::Brackets),
                OpTok::LeftBrace => Mark::Opening(Pair::Braces),
                OpTok::RightBrace => Mark::Closing(Pair::Braces),
                _ => Mark::Plain,
            },
            _ => Mark::Plain,
        }
    }

    pub fn is_opening(self) -> bool
        ensures { result ≡ is_opening self }
    {
        matches!(&self, Mark::Opening(_))
    }

    pub fn is_closing(self) -> bool
        ensures { result ≡ is_closing self }
    {
        matches!(&self, Mark::Closing(_))
    }
}
