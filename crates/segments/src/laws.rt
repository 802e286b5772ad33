ghost use Rattle.std.specs.Prelude.{◌≡◌, List, None, true};
ghost use Rattle.java_token.specs.declared.token.Token.{Token};
ghost use Rattle.segments.specs.Brackets.{IsBalanced, is_balanced, wrong_line};
ghost use Rattle.segments.specs.Cut.{Piece, is_end};
ghost use Rattle.segments.specs.Places.{between, behind};
ghost use Rattle.segments.specs.Segmentwise.{AreSegments};

/// The ends of a list, said as a set of its places, are those that are met when each segment in
/// turn ends at the first `;`, or behind the first group in braces that has no `=` before it in
/// the segment and no `default` right before it.
pub fn ends_by_segments()
    ensures are { (ps : List Piece) → AreSegments ps (between is_end ps) (behind is_end ps) }
    ensures alone { (ps : List Piece) (segments : List (List Piece × Piece)) (rest : List Piece)
        → AreSegments ps segments rest
        → (segments ≡ between is_end ps) × (rest ≡ behind is_end ps) }
{}

/// The brackets of a list pair exactly where the test says so, and exactly where no line is found
/// on which one doesn't.
pub fn pairs_where_no_line_is_wrong()
    ensures tested { (tokens : List Token) → is_balanced tokens ≡ true → IsBalanced tokens }
    ensures test { (tokens : List Token) → IsBalanced tokens → is_balanced tokens ≡ true }
    ensures pairs { (tokens : List Token) → wrong_line tokens ≡ None → IsBalanced tokens }
    ensures none_wrong { (tokens : List Token) → IsBalanced tokens → wrong_line tokens ≡ None }
{}
