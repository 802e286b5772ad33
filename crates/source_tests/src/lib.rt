//! What no row of source_rows can say of java_token, java_ast and java_grammar: copies, and the
//! steps of a reader.
#![tactic(auto)]

#[cfg(test)]
mod copies;
#[cfg(test)]
mod reading;
