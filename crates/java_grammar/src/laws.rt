//! Laws of the grammar.
ghost use Rattle.java_grammar.specs.Fronts.{FrontsAreSpelled};

/// In a unit and in each class body, the fronts of a list of segments that is spelled are
/// spelled. So the first segment with which the segments so far are not spelled is the first with
/// which they begin no list that is.
pub fn fronts_are_spelled()
    ensures { FrontsAreSpelled }
{}
