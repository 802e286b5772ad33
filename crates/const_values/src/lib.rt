//! Java's arithmetic of constants: what literals, operators, casts and conversions make of
//! constant values (JLS 15.29), apart from names, fields and classes.
//!
//! Every operator has an answer for every pair of operands: a constant, or why there is none.
#![tactic(auto)]

mod arithmetic;
mod binary_operators;
mod bitwise;
mod class_file;
mod comparison;
mod concatenation;
mod conditional_operator;
mod constant;
mod conversion;
mod ints;
mod laws;
mod literals;
mod longs;
mod promotion;
mod several_parts;
mod shift;
mod unary_operators;

pub use binary_operators::binary;
pub use class_file::{constant_of, written};
pub use conditional_operator::conditional;
pub use constant::{Constant, ConstantType, LONGEST_TEXT, NoConstant, Outcome};
pub use conversion::{cast, converted};
pub use laws::{quotients_have_their_remainder, wrapped_numbers_are_congruent};
pub use literals::literal;
pub use several_parts::combined;
pub use unary_operators::unary;
