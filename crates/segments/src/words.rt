ghost use Rattle.std.specs.Prelude.{◌≡◌};
ghost use Rattle.segments.specs.Words.{is_semicolon, is_assign, is_dot, is_default, begins_class};
ghost use Rattle.segments.specs.Words.{kind_names_class, kind_is_word, kind_is_record};
ghost use Rattle.segments.specs.Words.{kind_follows_name};

use java_token::{Kw, OpTok, Token, TokenKind};

#[tactic(auto, unfolding(crate::specs::Words::is_semicolon))]
pub fn is_semicolon(token: &Token) -> bool
    ensures { result ≡ is_semicolon token.now }
{
    matches!(&token.kind, TokenKind::Op(OpTok::Semicolon))
}

#[tactic(auto, unfolding(crate::specs::Words::is_assign))]
pub fn is_assign(token: &Token) -> bool
    ensures { result ≡ is_assign token.now }
{
    matches!(&token.kind, TokenKind::Op(OpTok::Assign))
}

#[tactic(auto, unfolding(crate::specs::Words::is_dot))]
pub fn is_dot(token: &Token) -> bool
    ensures { result ≡ is_dot token.now }
{
    matches!(&token.kind, TokenKind::Op(OpTok::Dot))
}

#[tactic(auto, unfolding(crate::specs::Words::is_default))]
pub fn is_default(token: &Token) -> bool
    ensures { result ≡ is_default token.now }
{
    matches!(&token.kind, TokenKind::Keyword(Kw::Default))
}

/// These tokens begin with what makes a declaration one of a class (JLS 8.1, 8.9, 8.10, 9.1, 9.6).
#[tactic(auto, unfolding(crate::specs::Words::begins_class))]
pub fn begins_class(tokens: &[Token]) -> bool
    ensures { result ≡ begins_class tokens.now }
{
    match tokens {
        [] => false,
        [first, ..] if names_class(&first.kind) => true,
        [first, name, next, ..] => {
            is_record(&first.kind) && is_word(&name.kind) && follows_name(&next.kind)
        }
        _ => false,
    }
}

fn names_class(kind: &TokenKind) -> bool
    ensures { result ≡ kind_names_class kind.now }
{
    matches!(
        kind,
        TokenKind::Keyword(Kw::Class)
            | TokenKind::Keyword(Kw::Interface)
            | TokenKind::Keyword(Kw::Enum)
    )
}

fn is_word(kind: &TokenKind) -> bool
    ensures { result ≡ kind_is_word kind.now }
{
    matches!(kind, TokenKind::Word(_))
}

fn is_record(kind: &TokenKind) -> bool
    ensures { result ≡ kind_is_record kind.now }
{
    match kind {
        TokenKind::Word(name) => name.bytes() == b"record".as_slice(),
        _ => false,
    }
}

fn follows_name(kind: &TokenKind) -> bool
    ensures { result ≡ kind_follows_name kind.now }
{
    matches!(
        kind,
        TokenKind::Op(OpTok::LeftParenthesis) | TokenKind::Op(OpTok::Less)
    )
}
