//! The members that are sought, and where they stand.
ghost use Rattle.std.specs.Prelude.{◌≡◌, MatchOption, None, Some, slice_get};
ghost use Rattle.std.specs.Prelude.{option_and_then};
ghost use Rattle.member_index.specs.Index.{IsIndexOf};
ghost use Rattle.client_view.specs.Members.{named};
ghost use Rattle.client_view.specs.Sought.{meant, fields_sought, methods_sought};

use class_desc::ClassDesc;
use hdr_core::Text;
use member_index::MemberIndex;

/// The name and the descriptor of members that are sought.
#[derive(Clone, Copy)]
pub struct Sought<'a> {
    pub name: &'a Text,
    pub descriptor: &'a Text,
}

impl<'a> Sought<'a> {
    /// What is sought by a name and a descriptor.
    pub fn of(name: &'a Text, descriptor: &'a Text) -> Sought<'a>
        ensures { meant result ≡ named name.now descriptor.now }
    {
        Sought { name, descriptor }
    }
}

/// What stands at a place.
pub fn item_at<T>(items: &[T], place: usize) -> Option<&T>
    ensures { MatchOption result (slice_get items.now place ≡ None)
        (λ item. slice_get items.now place ≡ Some item.now) }
{
    items.get(place)
}

/// One of some places.
pub fn place_at(places: &[u32], at: usize) -> Option<usize>
    ensures { result ≡ slice_get places.now at }
{
    match item_at(places, at) {
        Some(place) => Some(*place as usize),
        None => None,
    }
}

/// One of some places, if there is one.
pub fn place_of(places: &[u32], at: Option<usize>) -> Option<usize>
    ensures { result ≡ option_and_then (slice_get places.now) at }
{
    match at {
        Some(at) => place_at(places, at),
        None => None,
    }
}

/// The places of the methods that are sought and that a class declares.
pub fn method_places<'a>(
    classes: &[ClassDesc],
    index: &'a MemberIndex,
    class: u32,
    sought: &Sought<'_>,
) -> &'a [u32]
    ensures { IsIndexOf index.now classes.now →
        result.now ≡ methods_sought classes.now class sought.now }
{
    index.methods(classes, class, sought.name, sought.descriptor)
}

/// The place of the first field that is sought.
pub fn field_place(
    classes: &[ClassDesc],
    index: &MemberIndex,
    class: u32,
    sought: &Sought<'_>,
) -> Option<usize>
    ensures { IsIndexOf index.now classes.now →
        result ≡ slice_get (fields_sought classes.now class sought.now) 0 }
{
    place_at(
        index.fields(classes, class, sought.name, sought.descriptor),
        0,
    )
}

/// The place of the first method that is sought.
pub fn method_place(
    classes: &[ClassDesc],
    index: &MemberIndex,
    class: u32,
    sought: &Sought<'_>,
) -> Option<usize>
    ensures { IsIndexOf index.now classes.now →
        result ≡ slice_get (methods_sought classes.now class sought.now) 0 }
{
    place_at(method_places(classes, index, class, sought), 0)
}
