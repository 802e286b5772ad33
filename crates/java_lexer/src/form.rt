//! How a piece that is no word goes on: a machine that takes one unit at a time.
ghost use Rattle.std.specs.Prelude.{◌≡◌, ℕ, ◌<◌, ◌≤◌};
ghost use Rattle.java_lexer.specs.Machine.{after_dot, after_operator as machine_after_operator};
ghost use Rattle.java_lexer.specs.Machine.{doubled, first_form, form_kind, next_form};
ghost use Rattle.java_lexer.specs.Machine.{next_operator, single_operator, with_equals_sign};
ghost use Rattle.java_lexer.specs.Machine.{with_greater_sign};

use crate::kind::Kind;
use crate::number::Number;
use crate::quoted::Quoted;
use java_token::OpTok;

/// What the units of a piece so far make of it. An ASCII unit is its own symbol, any other 128.
#[derive(Clone, Copy)]
pub enum Form {
    /// A whole piece, which no unit goes on.
    Closed(Kind),
    /// A carriage return.
    Return,
    LineComment,
    /// A traditional comment; `star`: an asterisk came last.
    Comment { star: bool },
    Operator(OpTok),
    /// `..`, which only a third point makes a token.
    TwoDots,
    Number(Number),
    Quoted(Quoted),
}

impl Form {
    /// What a piece that begins with this symbol is so far.
    pub fn first(symbol: u8) -> Option<Form>
        ensures { result ≡ first_form symbol }
    {
        match symbol {
            b' ' | b'\t' | 0x0C | b'\n' => Some(Form::Closed(Kind::Blank)),
            b'\r' => Some(Form::Return),
            b'0' => Some(Form::Number(Number::Zero)),
            b'1'..=b'9' => Some(Form::Number(Number::Decimal)),
            b'"' => Some(Form::Quoted(Quoted::Quote)),
            b'\'' => Some(Form::Quoted(Quoted::Apostrophe)),
            _ => match single(symbol) {
                Some(operator) => Some(Form::Operator(operator)),
                None => None,
            },
        }
    }

    /// What the next symbol makes of it, if it goes on.
    pub fn next(self, symbol: u8) -> Option<Form>
        ensures { result ≡ next_form self symbol }
    {
        match self {
            Form::Closed(_) => None,
            Form::Return => {
                if symbol == b'\n' {
                    Some(Form::Closed(Kind::Blank))
                } else {
                    None
                }
            }
            Form::LineComment => {
                if symbol == b'\n' || symbol == b'\r' {
                    None
                } else {
                    Some(Form::LineComment)
                }
            }
            Form::Comment { star } => {
                if star && symbol == b'/' {
                    Some(Form::Closed(Kind::Blank))
                } else {
                    Some(Form::Comment {
                        star: symbol == b'*',
                    })
                }
            }
            Form::Operator(operator) => after_operator(operator, symbol),
            Form::TwoDots => {
                if symbol == b'.' {
                    Some(Form::Operator(OpTok::Ellipsis))
                } else {
                    None
                }
            }
            Form::Number(number) => number.next(symbol),
            Form::Quoted(quoted) => quoted.next(symbol),
        }
    }

    /// The kind of the piece, if it may end here.
    pub fn kind(self) -> Option<Kind>
        ensures { result ≡ form_kind self }
    {
        match self {
            Form::Closed(kind) => Some(kind),
            Form::Return | Form::LineComment => Some(Kind::Blank),
            Form::Comment { star: _ } | Form::TwoDots => None,
            Form::Operator(operator) => Some(Kind::Operator(operator)),
            Form::Number(number) => number.kind(),
            Form::Quoted(quoted) => quoted.kind(),
        }
    }
}

/// The operator or separator of one symbol.
fn single(symbol: u8) -> Option<OpTok>
    ensures { result ≡ single_operator symbol }
{
    match symbol {
        b'(' => Some(OpTok::LeftParenthesis),
        b')' => Some(OpTok::RightParenthesis),
        b'{' => Some(OpTok::LeftBrace),
        b'}' => Some(OpTok::RightBrace),
        b'[' => Some(OpTok::LeftBracket),
        b']' => Some(OpTok::RightBracket),
        b';' => Some(OpTok::Semicolon),
        b',' => Some(OpTok::Comma),
        b'.' => Some(OpTok::Dot),
        b'@' => Some(OpTok::At),
        b'=' => Some(OpTok::Assign),
        b'>' => Some(OpTok::Greater),
        b'<' => Some(OpTok::Less),
        b'!' => Some(OpTok::Not),
        b'~' => Some(OpTok::Complement),
        b'?' => Some(OpTok::Question),
        b':' => Some(OpTok::Colon),
        b'+' => Some(OpTok::Plus),
        b'-' => Some(OpTok::Minus),
        b'*' => Some(OpTok::Star),
        b'/' => Some(OpTok::Slash),
        b'&' => Some(OpTok::And),
        b'|' => Some(OpTok::Or),
        b'^' => Some(OpTok::Xor),
        b'%' => Some(OpTok::Percent),
        _ => None,
    }
}

fn after_operator(operator: OpTok, symbol: u8) -> Option<Form>
    ensures { result ≡ machine_after_operator operator symbol }
{
    match operator {
        OpTok::Dot => after_point(symbol),
        OpTok::Slash => {
            if symbol == b'/' {
                Some(Form::LineComment)
            } else {
                longer(operator, symbol)
            }
        }
        _ => longer(operator, symbol),
    }
}

fn after_point(symbol: u8) -> Option<Form>
    ensures { result ≡ after_dot symbol }
{
    if symbol == b'.' {
        Some(Form::TwoDots)
    } else if symbol >= b'0' && symbol <= b'9' {
        Some(Form::Number(Number::Fraction))
    } else {
        None
    }
}

fn longer(operator: OpTok, symbol: u8) -> Option<Form>
    ensures { result ≡ next_operator operator symbol }
{
    let next = match symbol {
        b'=' => with_equals(operator),
        b'>' => with_greater(operator),
        _ => twice(operator, symbol),
    };
    match next {
        Some(next) => Some(Form::Operator(next)),
        None => None,
    }
}

/// The operator with `=` behind it.
fn with_equals(operator: OpTok) -> Option<OpTok>
    ensures { result ≡ with_equals_sign operator }
{
    match operator {
        OpTok::Assign => Some(OpTok::Equal),
        OpTok::Greater => Some(OpTok::GreaterEqual),
        OpTok::Less => Some(OpTok::LessEqual),
        OpTok::Not => Some(OpTok::NotEqual),
        OpTok::Plus => Some(OpTok::PlusAssign),
        OpTok::Minus => Some(OpTok::MinusAssign),
        OpTok::Star => Some(OpTok::StarAssign),
        OpTok::Slash => Some(OpTok::SlashAssign),
        OpTok::And => Some(OpTok::AndAssign),
        OpTok::Or => Some(OpTok::OrAssign),
        OpTok::Xor => Some(OpTok::XorAssign),
        OpTok::Percent => Some(OpTok::PercentAssign),
        OpTok::ShiftLeft => Some(OpTok::ShiftLeftAssign),
        OpTok::ShiftRight => Some(OpTok::ShiftRightAssign),
        OpTok::ShiftRightUnsigned => Some(OpTok::ShiftRightUnsignedAssign),
        _ => None,
    }
}

/// The operator with `>` behind it.
fn with_greater(operator: OpTok) -> Option<OpTok>
    ensures { result ≡ with_greater_sign operator }
{
    match operator {
        OpTok::Minus => Some(OpTok::Arrow),
        OpTok::Greater => Some(OpTok::ShiftRight),
        OpTok::ShiftRight => Some(OpTok::ShiftRightUnsigned),
        _ => None,
    }
}

/// The operator of this one symbol, twice.
fn twice(operator: OpTok, symbol: u8) -> Option<OpTok>
    ensures { result ≡ doubled operator symbol }
{
    match operator {
        OpTok::Less if symbol == b'<' => Some(OpTok::ShiftLeft),
        OpTok::And if symbol == b'&' => Some(OpTok::AndAnd),
        OpTok::Or if symbol == b'|' => Some(OpTok::OrOr),
        OpTok::Plus if symbol == b'+' => Some(OpTok::Increment),
        OpTok::Minus if symbol == b'-' => Some(OpTok::Decrement),
        OpTok::Colon if symbol == b':' => Some(OpTok::DoubleColon),
        _ => None,
    }
}
