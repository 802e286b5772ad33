//! Questions about classes of as many members as there can be. Other examples of what clients find
//! are rows of class_rows.
#![tactic(auto)]

#[cfg(test)]
mod wide;
