//! The methods that superinterfaces give (JVMS 5.4.3.3).
ghost use Rattle.std.specs.Prelude.{◌≡◌, ◌≤◌, ◌↔◌, ℕ, Some, true, length, slice_get, [], Contains};
ghost use Rattle.std.specs.Prelude.{IfSome, ◌<◌, ◌⊎◌, ◌++◌, ◌∷◌, false, is_some, if◌then◌else◌};
ghost use Rattle.std.specs.Vec.{vec_capacity};
ghost use Rattle.member_index.specs.Index.{IsIndexOf};
ghost use Rattle.supertypes.specs.Ways.{IsBelow};
ghost use Rattle.class_views.specs.View.{View};
ghost use Rattle.class_views.specs.World.{supertypes as supertypes_of, walk};
ghost use Rattle.class_views.specs.Resolution.{first_declared, interface_method_in};
ghost use Rattle.class_views.specs.Resolution.{from_superinterfaces as from_interfaces};
ghost use Rattle.client_view.specs.Indexed.{HaveFewMembers};
ghost use Rattle.client_view.specs.Members.{Meets, declares};
ghost use Rattle.client_view.specs.Numbers.{views, AreApart, IsGraphOf};
ghost use Rattle.client_view.specs.Refusals.{IsFree};
ghost use Rattle.client_view.specs.Replies.{methods_of};
ghost use Rattle.client_view.specs.Sole.{IsSole, IsChosen, is_concrete as is_concrete_of};
ghost use Rattle.client_view.specs.Sought.{meant};

use crate::members::{Met, given_at, has_given, is_concrete};
use crate::sought::Sought;
use class_desc::ClassDesc;
use member_index::MemberIndex;
use reachability::Rows;
use supertypes::Search;

/// Keeps a class, if it is an interface that gives a method.
fn keep_given(
    classes: &[ClassDesc],
    index: &MemberIndex,
    candidates: &mut Vec<u32>,
    class: u32,
    sought: &Sought<'_>,
)
    requires room { length candidates.old.items < vec_capacity candidates.old }
    requires indexed { IsIndexOf index.now classes.now }
    ensures items { candidates.new.items ≡ candidates.old.items
        ++ (if declares (views classes.now)
        (interface_method_in (meant sought.now)) class
        then class ∷ [] else []) }
    ensures capacity { vec_capacity candidates.new ≡ vec_capacity candidates.old }
{
    if has_given(classes, index, class, sought) {
        candidates.push_reserved(class);
    }
}

/// The interfaces above a class that give a method.
fn gather_candidates(
    search: &mut Search,
    graph: &Rows,
    classes: &[ClassDesc],
    index: &MemberIndex,
    candidates: &mut Vec<u32>,
    start: u32,
    sought: &Sought<'_>,
)
    requires indexed { IsIndexOf index.now classes.now }
    requires level { length graph.now ≡ length classes.now }
    requires room { search.old ≡ record { classes = length classes.now; list = [] } }
    requires empty { candidates.old.items ≡ [] }
    requires capacity { length classes.now ≤ vec_capacity candidates.old }
    ensures each { (class : ℕ) → Contains candidates.new.items class ↔
        (IsBelow graph.now start class × (declares (views classes.now)
        (interface_method_in (meant sought.now)) class ≡ true)) }
    ensures capacity { vec_capacity candidates.new ≡ vec_capacity candidates.old }
    ensures kept { search.new ≡ search.old }
{
    search.gather(graph, &[start]);
    let above = search.gathered();
    for class in above {
        keep_given(classes, index, candidates, *class, sought);
    }
    search.forget();
}

/// Whether an interface isn't above another one, and its method isn't abstract.
fn stands_out(
    search: &Search,
    classes: &[ClassDesc],
    index: &MemberIndex,
    class: u32,
    sought: &Sought<'_>,
) -> bool
    requires few { HaveFewMembers classes.now }
    requires indexed { IsIndexOf index.now classes.now }
    ensures lone { result ≡ true → Contains search.now.list class → ⊥ }
    ensures concrete { result ≡ true → is_concrete_of (views classes.now)
        (meant sought.now) class ≡ true }
    ensures fails { result ≡ false → Contains search.now.list class
        ⊎ (is_concrete_of (views classes.now) (meant sought.now) class ≡ false) }
{
    !search.has(class) && is_concrete(classes, index, class, sought)
}

/// Whether there is another class than this one.
fn is_another(sole: Option<u32>, class: u32) -> bool
    ensures is { result ≡ true → IfSome sole (λ other. other ≡ class → ⊥) }
    ensures some { result ≡ true → is_some sole ≡ true }
    ensures none { (other : ℕ) → result ≡ false → sole ≡ Some other → other ≡ class }
{
    match sole {
        Some(other) => other != class,
        None => false,
    }
}

/// The only one of some interfaces that isn't above another one and whose method isn't
/// abstract.
fn sole_concrete(
    search: &Search,
    classes: &[ClassDesc],
    index: &MemberIndex,
    candidates: &[u32],
    sought: &Sought<'_>,
) -> Option<u32>
    requires few { HaveFewMembers classes.now }
    requires indexed { IsIndexOf index.now classes.now }
    ensures { IsSole (views classes.now) (meant sought.now) search.now.list
        candidates.now result }
{
    let mut sole = None;
    for class in candidates {
        if stands_out(search, classes, index, *class, sought) {
            if is_another(sole, *class) {
                return None;
            }
            sole = Some(*class);
        }
    }
    sole
}

/// The first interface of a walk that gives a method.
fn first_given(
    search: &mut Search,
    graph: &Rows,
    classes: &[ClassDesc],
    index: &MemberIndex,
    start: u32,
    sought: &Sought<'_>,
) -> Option<Met>
    requires room { search.old ≡ record { classes = length classes.now; list = [] } }
    requires few { HaveFewMembers classes.now }
    requires indexed { IsIndexOf index.now classes.now }
    requires apart { AreApart (views classes.now) }
    requires graph { IsGraphOf (views classes.now) supertypes_of graph.now }
    requires free { IsFree (views classes.now) start }
    ensures met { (c : View) → slice_get (views classes.now) start ≡ Some c →
        Meets (views classes.now) methods_of result
        (first_declared (interface_method_in (meant sought.now))
        (walk (views classes.now) c.name)) }
    ensures there { IfSome result (λ met. met.at.class < length classes.now) }
    ensures kept { search.new ≡ search.old }
{
    match search.first(
        graph,
        start,
        |class| has_given(classes, index, class, sought),
    ) {
        Some(class) => given_at(classes, index, class, sought),
        None => None,
    }
}

/// The interface above a class whose method is the only maximally specific one that isn't abstract.
fn sole_candidate(
    search: &mut Search,
    graph: &Rows,
    classes: &[ClassDesc],
    index: &MemberIndex,
    candidates: &mut Vec<u32>,
    start: u32,
    sought: &Sought<'_>,
) -> Option<u32>
    requires room { search.old ≡ record { classes = length classes.now; list = [] } }
    requires few { HaveFewMembers classes.now }
    requires indexed { IsIndexOf index.now classes.now }
    requires apart { AreApart (views classes.now) }
    requires graph { IsGraphOf (views classes.now) supertypes_of graph.now }
    requires free { IsFree (views classes.now) start }
    requires empty { candidates.old.items ≡ [] }
    requires capacity { length classes.now ≤ vec_capacity candidates.old }
    ensures chosen { (c : View) → slice_get (views classes.now) start ≡ Some c →
        IsChosen (views classes.now) c.name (meant sought.now) result }
    ensures kept { search.new ≡ search.old }
    ensures empty { candidates.new.items ≡ [] }
    ensures capacity { vec_capacity candidates.new ≡ vec_capacity candidates.old }
{
    gather_candidates(search, graph, classes, index, candidates, start, sought);
    search.gather(graph, candidates);
    let sole = sole_concrete(search, classes, index, candidates, sought);
    search.forget();
    candidates.clear();
    sole
}

/// The only maximally specific method of superinterfaces that isn't abstract, else the first one
/// in the walk.
pub fn from_superinterfaces(
    search: &mut Search,
    graph: &Rows,
    classes: &[ClassDesc],
    index: &MemberIndex,
    candidates: &mut Vec<u32>,
    start: u32,
    sought: &Sought<'_>,
) -> Option<Met>
    requires room { search.old ≡ record { classes = length classes.now; list = [] } }
    requires few { HaveFewMembers classes.now }
    requires indexed { IsIndexOf index.now classes.now }
    requires apart { AreApart (views classes.now) }
    requires graph { IsGraphOf (views classes.now) supertypes_of graph.now }
    requires free { IsFree (views classes.now) start }
    requires empty { candidates.old.items ≡ [] }
    requires capacity { length classes.now ≤ vec_capacity candidates.old }
    ensures met { (c : View) → slice_get (views classes.now) start ≡ Some c →
        Meets (views classes.now) methods_of result
        (from_interfaces (views classes.now) c.name (meant sought.now)) }
    ensures there { IfSome result (λ met. met.at.class < length classes.now) }
    ensures kept { search.new ≡ search.old }
    ensures empty { candidates.new.items ≡ [] }
    ensures capacity { vec_capacity candidates.new ≡ vec_capacity candidates.old }
{
    match sole_candidate(search, graph, classes, index, candidates, start, sought) {
        Some(class) => given_at(classes, index, class, sought),
        None => first_given(search, graph, classes, index, start, sought),
    }
}
