ghost use Rattle.std.specs.Prelude.{◌≡◌, ℕ, true, List, filter, Some};
ghost use Rattle.class_views.specs.View.{View};
ghost use Rattle.class_views.specs.World.{World, class_of, HasNoRing};
ghost use Rattle.class_views.specs.Resolution.{NameAndType};
ghost use Rattle.class_views.specs.Membership.{Key, MethodKey, Candidate, declared, is_empty};
ghost use Rattle.class_views.specs.Membership.{members_among};
ghost use Rattle.class_views.specs.OneStep.{AreApart, members_over, inherited_in_one_step};

/// Where no class above it reaches itself, the members of a class, among whatever candidates, are
/// its own, or come from the members of its supertypes, and no depth stands in this.
pub fn members_come_from_supertypes()
    ensures { (world : World) (key : Key) (all : List Candidate) (name : List ℕ) (c : View) →
        HasNoRing world name → class_of world name ≡ Some c →
        members_among world key all name ≡ members_over world key all c }
{}

/// No member method of a class stands in an interface above the interface of another one.
pub fn members_are_apart()
    ensures { (world : World) (sought : NameAndType) (all : List Candidate) (name : List ℕ) →
        AreApart world (filter (members_among world (MethodKey sought) all name) all) }
{}

/// The member methods of a class that declares none: of what it inherits by its superclass that
/// which is above nothing it inherits by its superinterfaces; or, if there is none, of the latter
/// that which is above nothing else of it.
pub fn members_come_in_one_step()
    ensures { (world : World) (sought : NameAndType) (all : List Candidate)
        (name : List ℕ) (c : View) →
        HasNoRing world name → class_of world name ≡ Some c →
        is_empty (declared (MethodKey sought) c) ≡ true →
        filter (members_among world (MethodKey sought) all name) all
        ≡ inherited_in_one_step world (MethodKey sought) all c }
{}
