ghost use Rattle.std.specs.Prelude.{◌≡◌};
ghost use Rattle.client_view.specs.Refusals.{class_reply};

/// What a question comes to. Numbers are places in the world's list of classes.
#[derive(Clone, Copy)]
pub enum Reply<T> {
    Found(T),
    NotFound,
    /// The class that isn't accessible, or that declares what isn't.
    NotAccessible { declarer: u32 },
    /// The classes that declare the first two members.
    Ambiguous { first: u32, second: u32 },
    /// A method of a class is asked of an interface, or the other way round.
    WrongKind,
    /// The least class that the named one reaches, or is, and that reaches itself.
    Cycle { at: u32 },
}

impl Reply<MemberAt> {
    /// The same of the member's class.
    pub(crate) fn class(self) -> Reply<u32>
        ensures { result ≡ class_reply self }
    {
        match self {
            Reply::Found(at) => Reply::Found(at.class),
            Reply::NotFound => Reply::NotFound,
            Reply::NotAccessible { declarer } => Reply::NotAccessible { declarer },
            Reply::Ambiguous { first, second } => Reply::Ambiguous { first, second },
            Reply::WrongKind => Reply::WrongKind,
            Reply::Cycle { at } => Reply::Cycle { at },
        }
    }
}

/// A field or a method: its class, and its place among the fields or methods of that.
#[derive(Clone, Copy)]
pub struct MemberAt {
    pub class: u32,
    pub index: u32,
}
