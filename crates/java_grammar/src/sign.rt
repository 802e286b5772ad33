ghost use Rattle.std.specs.Prelude.{◌≡◌};
ghost use Rattle.java_grammar.specs.Signs.{sign_is};

use crate::part::{ModifierWord, Pair, Part};
use java_ast::BinOp;

/// A token that stands for itself in the grammar.
#[derive(Clone, Copy)]
pub enum Sign {
    Dot,
    Comma,
    At,
    Assign,
    Question,
    Colon,
    LeftParenthesis,
    RightParenthesis,
    LeftBracket,
    RightBracket,
    LeftBrace,
    RightBrace,
    Less,
    Class,
    Extends,
    Super,
    And,
    Star,
    Minus,
    Ellipsis,
    Static,
    Default,
    Void,
    This,
    Interface,
    Enum,
    Package,
    Import,
    Implements,
    Throws,
}

impl Sign {
    pub fn is(self, part: Part) -> bool
        ensures { result ≡ sign_is self part }
    {
        match self {
            Sign::Dot => matches!(&part, Part::Dot),
            Sign::Comma => matches!(&part, Part::Comma),
            Sign::At => matches!(&part, Part::At),
            Sign::Assign => matches!(&part, Part::Assign),
            Sign::Question => matches!(&part, Part::Question),
            Sign::Colon => matches!(&part, Part::Colon),
            Sign::LeftParenthesis => matches!(&part, Part::Opening(Pair::Parentheses)),
            Sign::RightParenthesis => matches!(&part, Part::Closing(Pair::Parentheses)),
            Sign::LeftBracket => matches!(&part, Part::Opening(Pair::Brackets)),
            Sign::RightBracket => matches!(&part, Part::Closing(Pair::Brackets)),
            Sign::LeftBrace => matches!(&part, Part::Opening(Pair::Braces)),
            Sign::RightBrace => matches!(&part, Part::Closing(Pair::Braces)),
            Sign::Less => matches!(&part, Part::Binary(BinOp::Less)),
            Sign::Class => matches!(&part, Part::Class),
            Sign::Extends => matches!(&part, Part::Extends),
            Sign::Super => matches!(&part, Part::Super),
            Sign::And => matches!(&part, Part::Binary(BinOp::And)),
            Sign::Star => matches!(&part, Part::Binary(BinOp::Star)),
            Sign::Minus => matches!(&part, Part::Binary(BinOp::Minus)),
            Sign::Ellipsis => matches!(&part, Part::Ellipsis),
            Sign::Static => matches!(&part, Part::Modifier(ModifierWord::Static)),
            Sign::Default => matches!(&part, Part::Modifier(ModifierWord::Default)),
            Sign::Void => matches!(&part, Part::Void),
            Sign::This => matches!(&part, Part::This),
            Sign::Interface => matches!(&part, Part::Interface),
            Sign::Enum => matches!(&part, Part::Enum),
            Sign::Package => matches!(&part, Part::Package),
            Sign::Import => matches!(&part, Part::Import),
            Sign::Implements => matches!(&part, Part::Implements),
            Sign::Throws => matches!(&part, Part::Throws),
        }
    }
}
