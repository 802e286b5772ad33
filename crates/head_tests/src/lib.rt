//! Each public call of head_parser once, with ample memory.
#![tactic(auto)]

#[cfg(test)]
mod heads;
#[cfg(test)]
mod members;
#[cfg(test)]
mod tokens;
#[cfg(test)]
mod units;
