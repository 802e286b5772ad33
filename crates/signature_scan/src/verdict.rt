/// What a text is at a place.
#[derive(Clone, Copy, Debug, PartialEq, Eq)]
pub enum Verdict {
    /// A signature whose type arguments are nested at most 64 deep.
    Fine,
    /// No signature. `at` is the length of the longest prefix that begins one.
    BadText { at: u32 },
    /// A signature with type arguments nested deeper. `at` is the place of the 65th opening `<`.
    TooDeep { at: u32 },
}
