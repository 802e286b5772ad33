ghost use Rattle.std.specs.Prelude.{◌≡◌, IfOk};

use crate::types::TypeTree;
use hdr_core::{List, Memory, Text};
use sqlite_items::Boxed;
use std::alloc::Global;

/// An expression that may be constant (JLS 15.29), or a class literal (JLS 15.8.2).
///
/// Parentheses have no node of their own.
#[cycle(expression)]
#[derive(Drop)]
pub enum Expr {
    Lit(Lit),
    /// The words of a name, not empty (JLS 6.5).
    Name(List<Text>),
    ClassLit(TypeTree),
    /// JLS 15.15.
    Unary(UnOp, Boxed<Expr>),
    /// The operators of one level of precedence, from the left (JLS 15.17 to 15.24).
    Chain {
        first: Boxed<Expr>,
        /// Not empty.
        rest: List<Link>,
    },
    /// `?` and `:` (JLS 15.25).
    Cond(Boxed<Expr>, Boxed<Expr>, Boxed<Expr>),
    /// JLS 15.16.
    Cast(TypeTree, Boxed<Expr>),
}

/// An operator with its right operand.
#[cycle(expression)]
#[derive(Drop)]
pub struct Link {
    pub op: BinOp,
    pub right: Expr,
}

/// A unary operator of constant expressions (JLS 15.15.3 to 15.15.6).
#[derive(Clone, Copy, Debug, PartialEq, Eq)]
pub enum UnOp {
    /// `+`
    Plus,
    /// `-`
    Minus,
    /// `~`
    Complement,
    /// `!`
    Not,
}

/// A binary operator of constant expressions (JLS 15.17 to 15.24).
#[derive(Clone, Copy, Debug, PartialEq, Eq)]
pub enum BinOp {
    /// `*`
    Star,
    /// `/`
    Slash,
    /// `%`
    Percent,
    /// `+`
    Plus,
    /// `-`
    Minus,
    /// `<<`
    ShiftLeft,
    /// `>>`
    ShiftRight,
    /// `>>>`
    ShiftRightUnsigned,
    /// `<`
    Less,
    /// `<=`
    LessEqual,
    /// `>`
    Greater,
    /// `>=`
    GreaterEqual,
    /// `==`
    Equal,
    /// `!=`
    NotEqual,
    /// `&`
    And,
    /// `^`
    Xor,
    /// `|`
    Or,
    /// `&&`
    AndAnd,
    /// `||`
    OrOr,
}

/// A literal (JLS 3.10).
#[derive(Drop, PartialEq, Eq)]
pub enum Lit {
    /// `value` is None above 64 bits.
    Int {
        value: Option<u64>,
        decimal: bool,
        long: bool,
    },
    Real {
        double: bool,
    },
    /// One UTF-16 unit.
    Char(u16),
    /// The text that a string literal or a text block stands for.
    Str(Text),
    Bool(bool),
    Null,
}

impl Expr {
    #[cycle(copy_expression)]
    pub fn copy(&self, alloc: Global) -> Result<Expr, Memory>
        ensures { IfOk result (λ copy. copy ≡ self.now) }
    {
        match self {
            Expr::Lit(literal) => Ok(Expr::Lit(literal.copy(alloc)?)),
            Expr::Name(words) => Ok(Expr::Name(words.copy(alloc)?)),
            Expr::ClassLit(ty) => Ok(Expr::ClassLit(ty.copy(alloc)?)),
            Expr::Unary(op, operand) => Ok(Expr::Unary(*op, copy_boxed(alloc, operand)?)),
            Expr::Chain { first, rest } => Ok(Expr::Chain {
                first: copy_boxed(alloc, first)?,
                rest: copy_links(alloc, rest.items())?,
            }),
            Expr::Cond(test, yes, no) => Ok(Expr::Cond(
                copy_boxed(alloc, test)?,
                copy_boxed(alloc, yes)?,
                copy_boxed(alloc, no)?,
            )),
            Expr::Cast(ty, operand) => {
                Ok(Expr::Cast(ty.copy(alloc)?, copy_boxed(alloc, operand)?))
            }
        }
    }
}

impl Link {
    #[cycle(copy_expression)]
    pub fn copy(&self, alloc: Global) -> Result<Link, Memory>
        ensures { IfOk result (λ copy. copy ≡ self.now) }
    {
        Ok(Link {
            op: self.op,
            right: self.right.copy(alloc)?,
        })
    }
}

#[cycle(copy_expression)]
fn copy_boxed(alloc: Global, expression: &Boxed<Expr>) -> Result<Boxed<Expr>, Memory>
    ensures { IfOk result (λ copy. copy ≡ expression.now) }
{
    let copy = expression.get().copy(alloc)?;
    Ok(Boxed::new(alloc, copy)?)
}

#[cycle(copy_expression)]
fn copy_links(alloc: Global, links: &[Link]) -> Result<List<Link>, Memory>
    ensures { IfOk result (λ copy. copy ≡ links.now) }
{
    let mut copy = Vec::new(alloc);
    for link in links {
        copy.push(link.copy(alloc)?)?;
    }
    Ok(List::of(copy))
}

impl Lit {
    pub fn copy(&self, alloc: Global) -> Result<Lit, Memory>
        ensures { IfOk result (λ copy. copy ≡ self.now) }
    {
        match self {
            Lit::Int {
                value,
                decimal,
                long,
            } => Ok(Lit::Int {
                value: *value,
                decimal: *decimal,
                long: *long,
            }),
            Lit::Real { double } => Ok(Lit::Real { double: *double }),
            Lit::Char(unit) => Ok(Lit::Char(*unit)),
            Lit::Str(text) => Ok(Lit::Str(text.copy(alloc)?)),
            Lit::Bool(value) => Ok(Lit::Bool(*value)),
            Lit::Null => Ok(Lit::Null),
        }
    }
}
