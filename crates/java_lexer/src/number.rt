//! Numbers (JLS 3.10.1, 3.10.2), symbol by symbol.
ghost use Rattle.std.specs.Prelude.{◌≡◌, ℕ};
ghost use Rattle.java_lexer.specs.Machine as machine;

use crate::form::Form;
use crate::kind::Kind;

/// What the symbols of a number so far make of it. A gap is an underscore behind digits.
#[derive(Clone, Copy)]
pub enum Number {
    /// `0`
    Zero,
    /// Octal digits behind a 0.
    Octal,
    OctalGap,
    /// A 0 and digits that are not all octal: only a floating-point literal goes on so.
    Digits,
    DigitsGap,
    Decimal,
    DecimalGap,
    /// Digits and a point.
    Point,
    /// Digits behind a point.
    Fraction,
    FractionGap,
    /// `e` or `p`, behind which an exponent stands.
    Exponent,
    ExponentSign,
    ExponentDigits,
    ExponentGap,
    /// `0x`
    HexMark,
    Hex,
    HexGap,
    /// Hexadecimal digits and a point.
    HexPoint,
    /// `0x.`
    HexBarePoint,
    HexFraction,
    HexFractionGap,
    /// `0b`
    BinaryMark,
    Binary,
    BinaryGap,
}

impl Number {
    pub fn next(self, symbol: u8) -> Option<Form>
        ensures { result ≡ machine.next_number self symbol }
    {
        match self {
            Number::Zero => after_zero(symbol),
            Number::Octal | Number::OctalGap => self.after_octal(symbol),
            Number::Digits | Number::DigitsGap | Number::Decimal | Number::DecimalGap =>
                self.after_decimal(symbol),
            Number::Point | Number::Fraction | Number::FractionGap => self.after_point(symbol),
            Number::Exponent
            | Number::ExponentSign
            | Number::ExponentDigits
            | Number::ExponentGap => self.after_exponent(symbol),
            Number::HexMark | Number::Hex | Number::HexGap => self.after_hex(symbol),
            Number::HexPoint
            | Number::HexBarePoint
            | Number::HexFraction
            | Number::HexFractionGap => self.after_hex_point(symbol),
            Number::BinaryMark | Number::Binary | Number::BinaryGap => self.after_binary(symbol),
        }
    }

    pub fn kind(self) -> Option<Kind>
        ensures { result ≡ machine.number_kind self }
    {
        match self {
            Number::Zero | Number::Octal | Number::Decimal | Number::Hex | Number::Binary => {
                Some(Kind::Integer)
            }
            Number::Point | Number::Fraction | Number::ExponentDigits => Some(Kind::FloatingPoint),
            _ => None,
        }
    }

    fn after_octal(self, symbol: u8) -> Option<Form>
        ensures { result ≡ machine.after_octal self symbol }
    {
        if is_octal(symbol) {
            Some(Form::Number(Number::Octal))
        } else if is_digit(symbol) {
            Some(Form::Number(Number::Digits))
        } else if symbol == b'_' {
            Some(Form::Number(Number::OctalGap))
        } else {
            match self {
                Number::Octal => after_integer_digits(symbol),
                _ => None,
            }
        }
    }

    fn after_decimal(self, symbol: u8) -> Option<Form>
        ensures { result ≡ machine.after_decimal self symbol }
    {
        match self {
            Number::Digits => {
                run(
                    symbol,
                    Number::Digits,
                    Number::DigitsGap,
                    after_digits(symbol),
                )
            }
            Number::DigitsGap => run(symbol, Number::Digits, Number::DigitsGap, None),
            Number::Decimal => {
                run(
                    symbol,
                    Number::Decimal,
                    Number::DecimalGap,
                    after_integer_digits(symbol),
                )
            }
            _ => run(symbol, Number::Decimal, Number::DecimalGap, None),
        }
    }

    fn after_point(self, symbol: u8) -> Option<Form>
        ensures { result ≡ machine.after_point self symbol }
    {
        match self {
            Number::Point => {
                if is_digit(symbol) {
                    Some(Form::Number(Number::Fraction))
                } else {
                    after_fraction(symbol)
                }
            }
            Number::Fraction => {
                run(
                    symbol,
                    Number::Fraction,
                    Number::FractionGap,
                    after_fraction(symbol),
                )
            }
            _ => run(symbol, Number::Fraction, Number::FractionGap, None),
        }
    }

    fn after_exponent(self, symbol: u8) -> Option<Form>
        ensures { result ≡ machine.after_exponent self symbol }
    {
        match self {
            Number::Exponent => {
                if symbol == b'+' || symbol == b'-' {
                    Some(Form::Number(Number::ExponentSign))
                } else {
                    exponent_digit(symbol)
                }
            }
            Number::ExponentSign => exponent_digit(symbol),
            Number::ExponentDigits => {
                run(
                    symbol,
                    Number::ExponentDigits,
                    Number::ExponentGap,
                    after_exponent_digits(symbol),
                )
            }
            _ => run(symbol, Number::ExponentDigits, Number::ExponentGap, None),
        }
    }

    fn after_hex(self, symbol: u8) -> Option<Form>
        ensures { result ≡ machine.after_hex self symbol }
    {
        if is_hex(symbol) {
            return Some(Form::Number(Number::Hex));
        }
        match self {
            Number::HexMark => {
                if symbol == b'.' {
                    Some(Form::Number(Number::HexBarePoint))
                } else {
                    None
                }
            }
            Number::Hex => after_hex_digits(symbol),
            _ => {
                if symbol == b'_' {
                    Some(Form::Number(Number::HexGap))
                } else {
                    None
                }
            }
        }
    }

    fn after_hex_point(self, symbol: u8) -> Option<Form>
        ensures { result ≡ machine.after_hex_point self symbol }
    {
        if is_hex(symbol) {
            return Some(Form::Number(Number::HexFraction));
        }
        match self {
            Number::HexPoint => binary_exponent(symbol),
            Number::HexBarePoint => None,
            Number::HexFraction => {
                if symbol == b'_' {
                    Some(Form::Number(Number::HexFractionGap))
                } else {
                    binary_exponent(symbol)
                }
            }
            _ => {
                if symbol == b'_' {
                    Some(Form::Number(Number::HexFractionGap))
                } else {
                    None
                }
            }
        }
    }

    fn after_binary(self, symbol: u8) -> Option<Form>
        ensures { result ≡ machine.after_binary self symbol }
    {
        if symbol == b'0' || symbol == b'1' {
            return Some(Form::Number(Number::Binary));
        }
        match self {
            Number::BinaryMark => None,
            Number::Binary => {
                if symbol == b'_' {
                    Some(Form::Number(Number::BinaryGap))
                } else {
                    long_suffix(symbol)
                }
            }
            _ => {
                if symbol == b'_' {
                    Some(Form::Number(Number::BinaryGap))
                } else {
                    None
                }
            }
        }
    }
}

fn after_zero(symbol: u8) -> Option<Form>
    ensures { result ≡ machine.after_zero symbol }
{
    if is_octal(symbol) {
        Some(Form::Number(Number::Octal))
    } else if is_digit(symbol) {
        Some(Form::Number(Number::Digits))
    } else if symbol == b'_' {
        Some(Form::Number(Number::OctalGap))
    } else if symbol == b'x' || symbol == b'X' {
        Some(Form::Number(Number::HexMark))
    } else if symbol == b'b' || symbol == b'B' {
        Some(Form::Number(Number::BinaryMark))
    } else {
        after_integer_digits(symbol)
    }
}

/// Behind decimal digits: one more, an underscore, or something else.
fn run(symbol: u8, more: Number, gap: Number, other: Option<Form>) -> Option<Form>
    ensures { result ≡ machine.run symbol more gap other }
{
    if is_digit(symbol) {
        Some(Form::Number(more))
    } else if symbol == b'_' {
        Some(Form::Number(gap))
    } else {
        other
    }
}

fn after_integer_digits(symbol: u8) -> Option<Form>
    ensures { result ≡ machine.after_integer_digits symbol }
{
    if symbol == b'l' || symbol == b'L' {
        Some(Form::Closed(Kind::Integer))
    } else {
        after_digits(symbol)
    }
}

fn long_suffix(symbol: u8) -> Option<Form>
    ensures { result ≡ machine.after_long_suffix symbol }
{
    if symbol == b'l' || symbol == b'L' {
        Some(Form::Closed(Kind::Integer))
    } else {
        None
    }
}

fn after_digits(symbol: u8) -> Option<Form>
    ensures { result ≡ machine.after_digits symbol }
{
    if symbol == b'.' {
        Some(Form::Number(Number::Point))
    } else {
        after_fraction(symbol)
    }
}

fn after_fraction(symbol: u8) -> Option<Form>
    ensures { result ≡ machine.after_fraction symbol }
{
    if symbol == b'e' || symbol == b'E' {
        Some(Form::Number(Number::Exponent))
    } else {
        after_exponent_digits(symbol)
    }
}

fn after_exponent_digits(symbol: u8) -> Option<Form>
    ensures { result ≡ machine.after_exponent_digits symbol }
{
    if symbol == b'f' || symbol == b'F' || symbol == b'd' || symbol == b'D' {
        Some(Form::Closed(Kind::FloatingPoint))
    } else {
        None
    }
}

fn exponent_digit(symbol: u8) -> Option<Form>
    ensures { result ≡ machine.exponent_digit symbol }
{
    if is_digit(symbol) {
        Some(Form::Number(Number::ExponentDigits))
    } else {
        None
    }
}

fn after_hex_digits(symbol: u8) -> Option<Form>
    ensures { result ≡ machine.after_hex_digits symbol }
{
    if symbol == b'_' {
        Some(Form::Number(Number::HexGap))
    } else if symbol == b'.' {
        Some(Form::Number(Number::HexPoint))
    } else if symbol == b'l' || symbol == b'L' {
        Some(Form::Closed(Kind::Integer))
    } else {
        binary_exponent(symbol)
    }
}

fn binary_exponent(symbol: u8) -> Option<Form>
    ensures { result ≡ machine.binary_exponent symbol }
{
    if symbol == b'p' || symbol == b'P' {
        Some(Form::Number(Number::Exponent))
    } else {
        None
    }
}

fn is_digit(symbol: u8) -> bool
    ensures { result ≡ machine.is_digit symbol }
{
    symbol.is_ascii_digit()
}

pub fn is_octal(symbol: u8) -> bool
    ensures { result ≡ machine.is_octal symbol }
{
    matches!(symbol, b'0'..=b'7')
}

fn is_hex(symbol: u8) -> bool
    ensures { result ≡ machine.is_hex symbol }
{
    symbol.is_ascii_hexdigit()
}
