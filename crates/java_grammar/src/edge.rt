ghost use Rattle.std.specs.Prelude.{◌≡◌, length};
ghost use Rattle.java_grammar.specs.Marks.{edge_marks};
ghost use Rattle.java_grammar.specs.Reading.{is_end, is_group, is_semi};

/// What stands behind the tokens of a head, where that is told.
#[derive(Clone, Copy, PartialEq, Eq)]
pub enum Edge {
    Nothing,
    /// A group in braces that is skipped.
    Group,
    /// The `;` that ends a segment.
    Semicolon,
}

impl Edge {
    pub fn is_nothing(self) -> bool
        ensures { result ≡ is_end (edge_marks self) }
    {
        matches!(&self, Edge::Nothing)
    }

    pub fn is_group(self) -> bool
        ensures { result ≡ is_group (edge_marks self) }
    {
        matches!(&self, Edge::Group)
    }

    pub fn is_semicolon(self) -> bool
        ensures { result ≡ is_semi (edge_marks self) }
    {
        matches!(&self, Edge::Semicolon)
    }

    /// How many marks it is.
    pub fn marks(self) -> usize
        ensures { result ≡ length (edge_marks self) }
    {
        match self {
            Edge::Nothing => 0,
            Edge::Group | Edge::Semicolon => 1,
        }
    }
}
