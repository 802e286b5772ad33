ghost use Rattle.std.specs.Prelude.{◌≡◌};
ghost use Rattle.java_grammar.specs.Parts.{part_of, keyword_part, operator_part, word_part};

use crate::part::{ModifierWord, Pair, Part};
use java_ast::{BinOp, Primitive, UnOp};
use java_token::{Kw, OpTok, Token, TokenKind};

impl Part {
    #[tactic(auto, unfolding(crate::specs::Parts::part_of))]
    pub fn of(token: &Token) -> Part
        ensures { result ≡ part_of token.now }
    {
        match &token.kind {
            TokenKind::Word(name) => part_of_word(name.bytes()),
            TokenKind::Keyword(keyword) => part_of_keyword(*keyword),
            TokenKind::Lit(_) => Part::Literal,
            TokenKind::Op(operator) => part_of_operator(*operator),
        }
    }
}

fn part_of_word(name: &[u8]) -> Part
    ensures { result ≡ word_part name.now }
{
    if name == b"sealed".as_slice() {
        Part::Sealed
    } else {
        Part::Word
    }
}

fn part_of_keyword(keyword: Kw) -> Part
    ensures { result ≡ keyword_part keyword }
{
    match keyword {
        Kw::True | Kw::False | Kw::Null => Part::Literal,
        Kw::Boolean => Part::Primitive(Primitive::Boolean),
        Kw::Byte => Part::Primitive(Primitive::Byte),
        Kw::Short => Part::Primitive(Primitive::Short),
        Kw::Int => Part::Primitive(Primitive::Int),
        Kw::Long => Part::Primitive(Primitive::Long),
        Kw::Char => Part::Primitive(Primitive::Char),
        Kw::Float => Part::Primitive(Primitive::Float),
        Kw::Double => Part::Primitive(Primitive::Double),
        Kw::Void => Part::Void,
        Kw::Public => Part::Modifier(ModifierWord::Public),
        Kw::Protected => Part::Modifier(ModifierWord::Protected),
        Kw::Private => Part::Modifier(ModifierWord::Private),
        Kw::Abstract => Part::Modifier(ModifierWord::Abstract),
        Kw::Static => Part::Modifier(ModifierWord::Static),
        Kw::Final => Part::Modifier(ModifierWord::Final),
        Kw::Transient => Part::Modifier(ModifierWord::Transient),
        Kw::Volatile => Part::Modifier(ModifierWord::Volatile),
        Kw::Synchronized => Part::Modifier(ModifierWord::Synchronized),
        Kw::Native => Part::Modifier(ModifierWord::Native),
        Kw::Strictfp => Part::Modifier(ModifierWord::Strictfp),
        Kw::Default => Part::Modifier(ModifierWord::Default),
        Kw::Class => Part::Class,
        Kw::Interface => Part::Interface,
        Kw::Enum => Part::Enum,
        Kw::Package => Part::Package,
        Kw::Import => Part::Import,
        Kw::Extends => Part::Extends,
        Kw::Implements => Part::Implements,
        Kw::Throws => Part::Throws,
        Kw::Super => Part::Super,
        Kw::This => Part::This,
        Kw::New => Part::New,
        Kw::Instanceof => Part::Instanceof,
        _ => Part::Other,
    }
}

fn part_of_operator(operator: OpTok) -> Part
    ensures { result ≡ operator_part operator }
{
    match operator {
        OpTok::LeftParenthesis => Part::Opening(Pair::Parentheses),
        OpTok::RightParenthesis => Part::Closing(Pair::Parentheses),
        OpTok::LeftBrace => Part::Opening(Pair::Braces),
        OpTok::RightBrace => Part::Closing(Pair::Braces),
        OpTok::LeftBracket => Part::Opening(Pair::Brackets),
        OpTok::RightBracket => Part::Closing(Pair::Brackets),
        OpTok::Semicolon => Part::Semicolon,
        OpTok::Comma => Part::Comma,
        OpTok::Dot => Part::Dot,
        OpTok::Ellipsis => Part::Ellipsis,
        OpTok::At => Part::At,
        OpTok::DoubleColon => Part::DoubleColon,
        OpTok::Assign => Part::Assign,
        OpTok::Question => Part::Question,
        OpTok::Colon => Part::Colon,
        OpTok::Not => Part::Unary(UnOp::Not),
        OpTok::Complement => Part::Unary(UnOp::Complement),
        OpTok::Star => Part::Binary(BinOp::Star),
        OpTok::Slash => Part::Binary(BinOp::Slash),
        OpTok::Percent => Part::Binary(BinOp::Percent),
        OpTok::Plus => Part::Binary(BinOp::Plus),
        OpTok::Minus => Part::Binary(BinOp::Minus),
        OpTok::ShiftLeft => Part::Binary(BinOp::ShiftLeft),
        OpTok::ShiftRight => Part::Binary(BinOp::ShiftRight),
        OpTok::ShiftRightUnsigned => Part::Binary(BinOp::ShiftRightUnsigned),
        OpTok::Less => Part::Binary(BinOp::Less),
        OpTok::LessEqual => Part::Binary(BinOp::LessEqual),
        OpTok::Greater => Part::Binary(BinOp::Greater),
        OpTok::GreaterEqual => Part::Binary(BinOp::GreaterEqual),
        OpTok::Equal => Part::Binary(BinOp::Equal),
        OpTok::NotEqual => Part::Binary(BinOp::NotEqual),
        OpTok::And => Part::Binary(BinOp::And),
        OpTok::Xor => Part::Binary(BinOp::Xor),
        OpTok::Or => Part::Binary(BinOp::Or),
        OpTok::AndAnd => Part::Binary(BinOp::AndAnd),
        OpTok::OrOr => Part::Binary(BinOp::OrOr),
        _ => Part::OtherOperator,
    }
}
