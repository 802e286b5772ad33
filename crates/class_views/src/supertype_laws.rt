ghost use Rattle.std.specs.Prelude.{◌≡◌, ◌≤◌, ℕ, Bool, List, length, Some};
ghost use Rattle.class_views.specs.View.{View};
ghost use Rattle.class_views.specs.Supertypes.{Hierarchy, StepOf, fold_at};
ghost use Rattle.class_views.specs.Alike.{AreAlike, Keeps, Both, holds};
ghost use Rattle.class_views.specs.World.{World, Step, class_of, made, made_at, walk, walk_over};
ghost use Rattle.class_views.specs.World.{chain_at, chain, is_among, HasNoRing};

/// Where no class above that of a name reaches itself, each depth from the number of classes on
/// gives the same, whatever the step.
pub fn folds_settle<T>()
    ensures { (step : Step T) (world : World) (name : List ℕ) (depth : ℕ) →
        HasNoRing world name → length world ≤ depth →
        made_at step world depth name ≡ made step world name }
{}

/// In two hierarchies whose names stand for each other, steps that keep a relation make what is
/// related, at each depth.
pub fn folds_are_alike<Name, Other, Class, OtherClass, Made, OtherMade>()
    ensures { (h : Hierarchy Name Class) (g : Hierarchy Other OtherClass)
        (same : Name → Other → Bool) (related : Class → OtherClass → Bool)
        (agree : Made → OtherMade → Bool)
        (step : StepOf Class Made) (other : StepOf OtherClass OtherMade) →
        AreAlike h g (holds same) (holds related) →
        Keeps (holds related) (holds agree) step other →
        (depth : ℕ) (n : Name) (m : Other) → holds same n m →
        Both (holds agree) (fold_at h step depth n) (fold_at g other depth m) }
{}

/// Where no class above it reaches itself, a walk is the class, the walks of its superinterfaces
/// and the walk of its superclass, and no depth stands in this.
pub fn walks_come_from_supertypes()
    ensures { (world : World) (name : List ℕ) (c : View) →
        HasNoRing world name → class_of world name ≡ Some c →
        walk world name ≡ walk_over world c }
{}

/// A class stands on a chain at each depth from the number of classes on, or at none of these,
/// also in a ring.
pub fn chains_are_steady()
    ensures { (world : World) (name above : List ℕ) (depth : ℕ) →
        length world ≤ depth →
        is_among above (chain_at world depth name) ≡ is_among above (chain world name) }
{}
