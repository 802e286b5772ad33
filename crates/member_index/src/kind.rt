/// Which members of a class are listed, and by what they are told.
#[derive(Clone, Copy)]
pub enum Kind {
    /// Fields by name and descriptor.
    Fields,
    /// Fields by name alone.
    Names,
    /// Methods by name and descriptor.
    Methods,
}
