use std::collections::LinkedList;

/// One load: its word, and whether that was empty. No value of it is made.
pub struct Load {
    pub word: u32,
    pub empty: bool,
}

/// What a seat knows, which contracts alone see: no value of it is made.
pub struct View {
    /// The words that are filled for certain.
    pub known: LinkedList<u32>,
    /// How many loads the seat made, and the last of them.
    pub loads: u64,
    pub last: Option<Load>,
}
