ghost use Rattle.std.specs.Prelude.{ℕ, List};
ghost use Rattle.supertypes.specs.Walk.{walk, IsWalk};
ghost use Rattle.supertypes.specs.Ways.{HasNoRing};

/// Where no ring is reached, a walk is the class and the walks of its supertypes, and no depth
/// stands in this.
pub fn walks_come_from_supertypes()
    ensures { (graph : List (List ℕ)) (start : ℕ) →
        HasNoRing graph start → IsWalk graph start (walk graph) }
{}
