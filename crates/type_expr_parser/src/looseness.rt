ghost use Rattle.std.specs.Prelude.{◌≡◌};
ghost use Rattle.type_expr_parser.specs.Levels.{looseness as looseness_of, prefix_of};

use java_ast::{BinOp, UnOp};
use java_grammar::Part;

/// How many levels of binary operators there are (JLS 15.17 to 15.24).
pub const LOOSEST: u32 = 10;

/// How loosely an operator binds: 1 of products, 10 of `||`.
pub fn looseness(operator: BinOp) -> u32
    ensures { result ≡ looseness_of operator }
{
    match operator {
        BinOp::Star | BinOp::Slash | BinOp::Percent => 1,
        BinOp::Plus | BinOp::Minus => 2,
        BinOp::ShiftLeft | BinOp::ShiftRight | BinOp::ShiftRightUnsigned => 3,
        BinOp::Less | BinOp::LessEqual | BinOp::Greater | BinOp::GreaterEqual => 4,
        BinOp::Equal | BinOp::NotEqual => 5,
        BinOp::And => 6,
        BinOp::Xor => 7,
        BinOp::Or => 8,
        BinOp::AndAnd => 9,
        BinOp::OrOr => LOOSEST,
    }
}

/// Which prefix operator a token is (JLS 15.15).
pub fn prefix_operator(part: Option<Part>) -> Option<UnOp>
    ensures { result ≡ prefix_of part }
{
    match part {
        Some(Part::Binary(BinOp::Plus)) => Some(UnOp::Plus),
        Some(Part::Binary(BinOp::Minus)) => Some(UnOp::Minus),
        Some(Part::Unary(UnOp::Complement)) => Some(UnOp::Complement),
        Some(Part::Unary(UnOp::Not)) => Some(UnOp::Not),
        _ => None,
    }
}
