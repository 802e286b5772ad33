//! Tokens that are read from the front, where `>>` and `>>>` may be read angle by angle.
ghost use Rattle.std.specs.Prelude.{◌≡◌, ◌≤◌, ◌-◌, ◌++◌, drop, if◌then◌else◌, IfSome, IfNone};
ghost use Rattle.java_grammar.specs.Parts.{parts};
ghost use Rattle.java_grammar.specs.Marks.{marks, edge_marks};
ghost use Rattle.java_grammar.specs.Reading.{first_angles, is_end, front_part, is_angle};
ghost use Rattle.java_grammar.specs.Reading.{is_group, is_semi};
ghost use Rattle.java_grammar.specs.Reading.{behind_mark, NothingRead, IsRead, angle_operator};
ghost use Rattle.java_grammar.specs.Reading.{IsFront, NoOperator};
ghost use Rattle.java_grammar.specs.Expressions.{Operator};

use crate::edge::Edge;
use crate::part::Part;
use java_ast::BinOp;
use java_token::Token;
use std::marker::Model;

/// The tokens that are still to be read, and what stands behind them. Contracts see them as marks:
/// each token is one, and each closing angle of `>`, `>>` and `>>>` is one, so that type arguments
/// may take some angles of a token and leave the others (JLS 3.5).
#[derive(Drop)]
pub struct Reader<'a> {
    rest: &'a [Token],
    /// How many angles of the first token are read.
    taken: usize,
    end: Edge,
}

impl<'a> Model for Reader<'a> {
    ghost use Rattle.std.specs.Prelude.{List, drop, ◌≤◌, ◌-◌, ◌++◌};
    ghost use Rattle.java_grammar.specs.Parts.{parts};
    ghost use Rattle.java_grammar.specs.Marks.{Mark, marks, edge_marks};
    ghost use Rattle.java_grammar.specs.Reading.{first_angles};

    ghost Value = { List Mark };

    ghost view = { λ reader. drop reader.taken (marks reader.rest.now) ++ edge_marks reader.end };

    ghost invariant = { λ reader. reader.taken ≤ first_angles (parts reader.rest.now) - 1 };
}

impl<'a> Reader<'a> {
    /// A reader of these tokens alone.
    pub fn of(tokens: &'a [Token]) -> Reader<'a>
        ensures { result ≡ marks tokens.now }
    {
        Reader::up_to(tokens, Edge::Nothing)
    }

    /// A reader of these tokens and of what stands behind them.
    pub fn up_to(tokens: &'a [Token], end: Edge) -> Reader<'a>
        ensures { result ≡ marks tokens.now ++ edge_marks end }
    {
        Reader {
            rest: tokens,
            taken: 0,
            end,
        }
    }

    /// A reader of the same tokens, which moves by itself.
    pub fn fork(&self) -> Reader<'a>
        ensures { result ≡ self.now }
    {
        Reader {
            rest: self.rest,
            taken: self.taken,
            end: self.end,
        }
    }

    pub fn is_at_end(&self) -> bool
        ensures { result ≡ is_end self.now }
    {
        self.rest.is_empty() && self.end.is_nothing()
    }

    /// The tokens that are left, how many angles of the first of them are read, and what stands
    /// behind them.
    pub fn rest(&self) -> (&'a [Token], usize, Edge)
        ensures marks { drop result.1 (marks result.0.now) ++ edge_marks result.2 ≡ self.now }
        ensures within { result.1 ≤ first_angles (parts result.0.now) - 1 }
    {
        (self.rest, self.taken, self.end)
    }

    /// Whether a group in braces that is skipped came next; then it is read.
    pub fn group(&mut self) -> bool
        ensures is { result ≡ is_group self.old }
        ensures read { self.new ≡ (if is_group self.old then behind_mark self.old else self.old) }
    {
        if !self.rest.is_empty() {
            return false;
        }
        if !self.end.is_group() {
            return false;
        }
        self.end = Edge::Nothing;
        true
    }

    /// Whether the `;` that ends a segment came next; then it is read.
    pub fn semicolon(&mut self) -> bool
        ensures is { result ≡ is_semi self.old }
        ensures read { self.new ≡ (if is_semi self.old then behind_mark self.old else self.old) }
    {
        if !self.rest.is_empty() {
            return false;
        }
        if !self.end.is_semicolon() {
            return false;
        }
        self.end = Edge::Nothing;
        true
    }

    /// What the next token is; None at a closing angle and at the end.
    pub fn part(&self) -> Option<Part>
        ensures { result ≡ front_part self.now }
    {
        match self.rest {
            [first, ..] => {
                let part = Part::of(first);
                if part.angles() == 0 { Some(part) } else { None }
            }
            [] => None,
        }
    }

    /// The next token, if that is no closing angle; else nothing is read.
    pub fn token(&mut self) -> Option<&'a Token>
        ensures read { IfSome result (λ token. IsRead token.now self.old self.new) }
        ensures none { IfNone result (NothingRead self.old self.new) }
    {
        let [first, rest @ ..] = self.rest else {
            return None;
        };
        if Part::of(first).angles() > 0 {
            return None;
        }
        self.rest = rest;
        self.taken = 0;
        Some(first)
    }

    /// Whether a closing angle came next. It is read, perhaps as the first one of a token.
    pub fn angle(&mut self) -> bool
        ensures is { result ≡ is_angle self.old }
        ensures read { self.new ≡ (if is_angle self.old then behind_mark self.old else self.old) }
    {
        let [first, rest @ ..] = self.rest else {
            return false;
        };
        let angles = Part::of(first).angles();
        if angles == 0 {
            return false;
        }
        if self.taken + 1 < angles {
            self.taken += 1;
        } else {
            self.rest = rest;
            self.taken = 0;
        }
        true
    }

    /// The next binary operator (JLS 15.17 to 15.24): `>`, `>>` and `>>>` are all the angles that
    /// are left of a token. At anything else nothing is read.
    pub fn operator(&mut self) -> Option<BinOp>
        ensures read { IfSome result (λ op. IsFront (Operator op) self.old self.new) }
        ensures none { IfNone result (NoOperator self.old self.new) }
    {
        let [first, rest @ ..] = self.rest else {
            return None;
        };
        let part = Part::of(first);
        let angles = part.angles();
        if angles > 0 {
            let operator = angle_operator(angles - self.taken);
            self.rest = rest;
            self.taken = 0;
            return Some(operator);
        }
        match part.binary() {
            Some(operator) => {
                self.rest = rest;
                self.taken = 0;
                Some(operator)
            }
            None => None,
        }
    }
}

/// So many closing angles as an operator.
fn angle_operator(count: usize) -> BinOp
    ensures { result ≡ angle_operator count }
{
    match count {
        1 => BinOp::Greater,
        2 => BinOp::ShiftRight,
        _ => BinOp::ShiftRightUnsigned,
    }
}
