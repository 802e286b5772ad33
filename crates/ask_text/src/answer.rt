use class_desc::{Attr, ClassDesc, FieldDesc, MethodDesc, Value};
use hdr_core::Text;

/// What is found, by the descriptions that it stands in.
#[derive(Clone, Copy)]
pub enum Finding<'a> {
    Class(&'a ClassDesc),
    /// A field, and the name of the class that declares it.
    Field {
        declarer: &'a Text,
        field: &'a FieldDesc,
    },
    /// A method, and the name of the class that declares it.
    Method {
        declarer: &'a Text,
        method: &'a MethodDesc,
    },
    Constant(&'a Value),
    /// The annotations among the attributes of a class or a member.
    Annotations(&'a [Attr]),
}

/// What a question comes to. Classes are told by their names.
#[derive(Clone, Copy)]
pub enum Answer<'a> {
    Found(Finding<'a>),
    NotFound,
    /// The class that isn't accessible, or that declares what isn't.
    NotAccessible(&'a Text),
    /// The classes that declare the first two members.
    Ambiguous(&'a Text, &'a Text),
    /// A method of a class is asked of an interface, or the other way round.
    WrongKind,
    /// The least class that the named one reaches, or is, and that reaches itself.
    Cycle(&'a Text),
}
