ghost use Rattle.std.specs.Prelude.{◌≡◌, ℕ, false, List};
ghost use Rattle.std.specs.List.{list_any, AllByRecursion};
ghost use Rattle.class_desc.specs.declared.class.ClassDesc.{ClassDesc};
ghost use Rattle.class_desc.specs.ClassFile.{IsValid};
ghost use Rattle.class_views.specs.Access.{Client};
ghost use Rattle.class_views.specs.Kept.{strip_each, strip_set};
ghost use Rattle.class_views.specs.Query.{Query, IsUnhidden};
ghost use Rattle.class_views.specs.Strip.{HasOneInnerClasses};
ghost use Rattle.class_views.specs.World.{World};
ghost use Rattle.projection.specs.ShowsLess.{ShowsLess};
ghost use Rattle.projection.specs.Stripping.{class_names, removed_names, world_of, names_removed};
ghost use Rattle.projection.specs.Survives.{asks_members, IsClientQuery, Survives};
ghost use Rattle.projection.specs.Written.{left_in, KeepsAnswers};

/// In a world that shows less, a query that isn't of membership has the answer that it has in the
/// full world, if it succeeds there.
pub fn resolution_survives()
    ensures { (read gone : List (List ℕ)) (world less : World) (client : Client) (query : Query) →
        ShowsLess read gone world less → IsClientQuery gone client query →
        asks_members query ≡ false → Survives world less client query }
{}

/// The same of each query whose answer no private member of a class read hides, so also of
/// membership.
pub fn membership_survives()
    ensures { (read gone : List (List ℕ)) (world less : World) (client : Client) (query : Query) →
        ShowsLess read gone world less → IsClientQuery gone client query →
        IsUnhidden world read query → Survives world less client query }
{}

/// The kept classes of a list, stripped, beside other classes: a world that shows less, where no
/// description has two InnerClasses and no other class names a removed one as a supertype.
pub fn stripping_shows_less()
    ensures one { (list : List ClassDesc) (others : World) →
        AllByRecursion HasOneInnerClasses list → list_any (names_removed list) others ≡ false →
        ShowsLess (class_names list) (removed_names list) (world_of list others)
        (world_of (strip_set list) others) }
    // So is that of classes that files spell, since a file has one InnerClasses at most.
    ensures valid { (list : List ClassDesc) (others : World) →
        AllByRecursion IsValid list → list_any (names_removed list) others ≡ false →
        ShowsLess (class_names list) (removed_names list) (world_of list others)
        (world_of (strip_set list) others) }
{}

/// What is left of a list where it is stripped keeps the answers of the list, where no class has
/// two InnerClasses.
pub fn stripping_keeps_answers()
    ensures set { (list : List ClassDesc) → AllByRecursion HasOneInnerClasses list →
        KeepsAnswers list (strip_set list) }
    ensures each { (list : List ClassDesc) → AllByRecursion HasOneInnerClasses list →
        KeepsAnswers list (left_in (strip_each list)) }
{}
