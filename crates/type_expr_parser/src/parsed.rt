/// A tree that was read from the front of a list of tokens.
#[derive(Drop)]
pub struct Parsed<T> {
    pub tree: T,
    /// How many whole tokens it has.
    pub used: u32,
    /// How many closing angles it has of the token behind these, which is `>>` or `>>>`; 0 where
    /// it ends with a whole token.
    pub part: u32,
}
