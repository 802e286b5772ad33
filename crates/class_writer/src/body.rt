/// The body of an attribute that was begun.
#[derive(Clone, Copy)]
pub struct Body {
    /// Of its length among the items.
    pub place: usize,
    /// The size of the items before its length, told up to the greatest number.
    pub before: usize,
}
