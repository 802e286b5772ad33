ghost use Rattle.std.specs.Prelude.{◌≡◌};
ghost use Rattle.java_grammar.specs.Tests.{is_opening, is_closing, is_group_start};
ghost use Rattle.java_grammar.specs.Tests.{is_bracket_start, is_bracket_end, is_dot, is_word};
ghost use Rattle.java_grammar.specs.Tests.{is_sealed, is_primitive, is_instanceof, is_at};
ghost use Rattle.java_grammar.specs.Tests.{is_final, is_comma, is_less, is_double_colon};
ghost use Rattle.java_grammar.specs.Tests.{begins_type_behind, is_in_type_arguments, angles};
ghost use Rattle.java_grammar.specs.Reading.{binary_of};
ghost use Rattle.java_grammar.specs.Counts.{is_assign, is_default, is_plain_part, is_prefix};
ghost use Rattle.java_grammar.specs.Counts.{is_question, takes_prefix, ends_run};

use crate::part::{ModifierWord, Pair, Part};
use java_ast::BinOp;

impl Part {
    pub fn is_opening(self) -> bool
        ensures { result ≡ is_opening self }
    {
        matches!(&self, Part::Opening(_))
    }

    pub fn is_closing(self) -> bool
        ensures { result ≡ is_closing self }
    {
        matches!(&self, Part::Closing(_))
    }

    /// `(`
    pub fn is_group_start(self) -> bool
        ensures { result ≡ is_group_start self }
    {
        matches!(&self, Part::Opening(Pair::Parentheses))
    }

    /// `[`
    pub fn is_bracket_start(self) -> bool
        ensures { result ≡ is_bracket_start self }
    {
        matches!(&self, Part::Opening(Pair::Brackets))
    }

    /// `]`
    pub fn is_bracket_end(self) -> bool
        ensures { result ≡ is_bracket_end self }
    {
        matches!(&self, Part::Closing(Pair::Brackets))
    }

    pub fn is_word(self) -> bool
        ensures { result ≡ is_word self }
    {
        matches!(&self, Part::Word | Part::Sealed)
    }

    /// The word `sealed`.
    pub fn is_sealed(self) -> bool
        ensures { result ≡ is_sealed self }
    {
        matches!(&self, Part::Sealed)
    }

    pub fn is_primitive(self) -> bool
        ensures { result ≡ is_primitive self }
    {
        matches!(&self, Part::Primitive(_))
    }

    pub fn is_dot(self) -> bool
        ensures { result ≡ is_dot self }
    {
        matches!(&self, Part::Dot)
    }

    pub fn is_comma(self) -> bool
        ensures { result ≡ is_comma self }
    {
        matches!(&self, Part::Comma)
    }

    pub fn is_at(self) -> bool
        ensures { result ≡ is_at self }
    {
        matches!(&self, Part::At)
    }

    pub fn is_double_colon(self) -> bool
        ensures { result ≡ is_double_colon self }
    {
        matches!(&self, Part::DoubleColon)
    }

    pub fn is_final(self) -> bool
        ensures { result ≡ is_final self }
    {
        matches!(&self, Part::Modifier(ModifierWord::Final))
    }

    /// `<`
    pub fn is_less(self) -> bool
        ensures { result ≡ is_less self }
    {
        matches!(&self, Part::Binary(BinOp::Less))
    }

    /// How many closing angles it is: `>`, `>>` and `>>>` are one to three, all others none.
    pub fn angles(self) -> usize
        ensures { result ≡ angles self }
    {
        match self {
            Part::Binary(BinOp::Greater) => 1,
            Part::Binary(BinOp::ShiftRight) => 2,
            Part::Binary(BinOp::ShiftRightUnsigned) => 3,
            _ => 0,
        }
    }

    pub fn is_instanceof(self) -> bool
        ensures { result ≡ is_instanceof self }
    {
        matches!(&self, Part::Instanceof)
    }

    /// Behind it, too, a type may stand in an expression (JLS 15.9, 15.10.1, 15.11, 15.12, 15.13).
    pub fn begins_type_behind(self) -> bool
        ensures { result ≡ begins_type_behind self }
    {
        matches!(&self, Part::New | Part::Dot | Part::DoubleColon)
    }

    /// It may stand in type arguments (JLS 4.5.1), where angles, annotations and dimensions may
    /// stand too.
    pub fn is_in_type_arguments(self) -> bool
        ensures { result ≡ is_in_type_arguments self }
    {
        matches!(
            &self,
            Part::Word
                | Part::Sealed
                | Part::Primitive(_)
                | Part::Dot
                | Part::Comma
                | Part::Question
                | Part::Extends
                | Part::Super
        )
    }

    /// The binary operator that it is.
    pub fn binary(self) -> Option<BinOp>
        ensures { result ≡ binary_of self }
    {
        match self {
            Part::Binary(operator) => Some(operator),
            _ => None,
        }
    }

    /// `=`
    pub fn is_assign(self) -> bool
        ensures { result ≡ is_assign self }
    {
        matches!(&self, Part::Assign)
    }

    pub fn is_default(self) -> bool
        ensures { result ≡ is_default self }
    {
        matches!(&self, Part::Modifier(ModifierWord::Default))
    }

    /// It may stand in an initialiser that is a constant expression (JLS 15.29).
    pub fn is_plain(self) -> bool
        ensures { result ≡ is_plain_part self }
    {
        matches!(
            &self,
            Part::Literal
                | Part::Word
                | Part::Sealed
                | Part::Primitive(_)
                | Part::Dot
                | Part::Question
                | Part::Colon
                | Part::Opening(Pair::Parentheses)
                | Part::Closing(Pair::Parentheses)
                | Part::Binary(_)
                | Part::Unary(_)
        )
    }

    /// `+`, `-`, `!` or `~`.
    pub fn is_prefix(self) -> bool
        ensures { result ≡ is_prefix self }
    {
        matches!(
            &self,
            Part::Binary(BinOp::Plus) | Part::Binary(BinOp::Minus) | Part::Unary(_)
        )
    }

    pub fn is_question(self) -> bool
        ensures { result ≡ is_question self }
    {
        matches!(&self, Part::Question)
    }

    /// It is an operator (JLS 3.12) or `(`: behind it `+` and `-` are prefix operators.
    pub fn takes_prefix(self) -> bool
        ensures { result ≡ takes_prefix self }
    {
        matches!(
            &self,
            Part::Binary(_)
                | Part::Unary(_)
                | Part::Assign
                | Part::OtherOperator
                | Part::Opening(Pair::Parentheses)
                | Part::Question
                | Part::Colon
        )
    }

    /// A value of an element that is an expression ends before it (JLS 9.7.1).
    pub fn ends_run(self) -> bool
        ensures { result ≡ ends_run self }
    {
        matches!(
            &self,
            Part::Opening(Pair::Braces)
                | Part::Closing(Pair::Braces)
                | Part::Comma
                | Part::Assign
                | Part::At
        )
    }
}
