//! Constants, and why an expression is none.
ghost use Rattle.std.specs.Prelude.{◌≡◌};
ghost use Rattle.const_values.specs.Outcome as spec;

use hdr_core::Text;
use java_ast::Primitive;

/// The value of a constant expression (JLS 15.29), with its type.
#[derive(Debug, Drop, PartialEq, Eq)]
pub enum Constant {
    Boolean(bool),
    Byte(i8),
    Short(i16),
    /// One UTF-16 unit.
    Char(u16),
    Int(i32),
    Long(i64),
    /// A `String`, in modified UTF-8 (JVMS 4.4.7).
    Str(Text),
}

/// Why an expression has no constant. Of several reasons the first in this order counts.
#[derive(Clone, Copy, Debug, PartialEq, Eq)]
pub enum NoConstant {
    /// It is no constant expression of Java: `null`, a class literal, operands that the operator
    /// doesn't take, a divisor that is zero.
    NotConst,
    /// An integer literal is too large for its type (JLS 3.10.1).
    Range,
    /// A text has more than [`LONGEST_TEXT`] bytes.
    TooLong,
    /// A float or a double, whose arithmetic isn't done.
    Unsupported,
}

/// What an expression comes to.
pub type Outcome = Result<Constant, NoConstant>;

/// A type that a constant field may have (JLS 4.12.4).
#[derive(Clone, Copy, Debug, PartialEq, Eq)]
pub enum ConstantType {
    Primitive(Primitive),
    /// java/lang/String
    Text,
}

/// The most bytes that a text of a class file may have (JVMS 4.4.7).
pub const LONGEST_TEXT: usize = 65_535;

impl NoConstant {
    /// The first of this reason and the part's.
    pub(crate) fn or_earlier(self, part: &Outcome) -> NoConstant
        ensures { result ≡ spec.or_earlier self part.now }
    {
        match part {
            Ok(_) => self,
            Err(other) => self.earlier(*other),
        }
    }

    fn earlier(self, other: NoConstant) -> NoConstant
        ensures { result ≡ spec.earlier self other }
    {
        match (self, other) {
            (NoConstant::NotConst, _) | (_, NoConstant::NotConst) => NoConstant::NotConst,
            (NoConstant::Range, _) | (_, NoConstant::Range) => NoConstant::Range,
            (NoConstant::TooLong, _) | (_, NoConstant::TooLong) => NoConstant::TooLong,
            (NoConstant::Unsupported, NoConstant::Unsupported) => NoConstant::Unsupported,
        }
    }
}

/// A boolean constant, where there is one.
pub(crate) fn of_boolean(value: Option<bool>) -> Outcome
    ensures { result ≡ spec.boolean_or_none value }
{
    match value {
        Some(value) => Ok(Constant::Boolean(value)),
        None => Err(NoConstant::NotConst),
    }
}

/// An int constant, where there is one.
pub(crate) fn of_int(value: Option<i32>) -> Outcome
    ensures { result ≡ spec.int_or_none value }
{
    match value {
        Some(value) => Ok(Constant::Int(value)),
        None => Err(NoConstant::NotConst),
    }
}

/// A long constant, where there is one.
pub(crate) fn of_long(value: Option<i64>) -> Outcome
    ensures { result ≡ spec.long_or_none value }
{
    match value {
        Some(value) => Ok(Constant::Long(value)),
        None => Err(NoConstant::NotConst),
    }
}

/// A text, unless it is too long.
pub(crate) fn of_text(text: Text) -> Outcome
    ensures { result ≡ spec.text_or_too_long text }
{
    if text.bytes().len() <= LONGEST_TEXT {
        Ok(Constant::Str(text))
    } else {
        Err(NoConstant::TooLong)
    }
}
