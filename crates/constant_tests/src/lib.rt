//! Examples of constants: the tests of const_values, in a crate of their own, so that its proofs
//! are checked once.
#![tactic(auto)]

#[cfg(test)]
mod class_files;
#[cfg(test)]
mod conversions;
#[cfg(test)]
mod literals;
#[cfg(test)]
mod operators;
#[cfg(test)]
mod texts;
#[cfg(test)]
mod words;
