ghost use Rattle.std.specs.Prelude.{◌≡◌};
ghost use Rattle.client_view.specs.Refusals.{reply_of};

use crate::reply::Reply;

/// Why a question isn't gone into.
#[derive(Clone, Copy)]
pub enum Refusal {
    NoClass,
    /// The class isn't accessible.
    Hidden(u32),
    /// The least class that it reaches, or is, and that reaches itself.
    Ring(u32),
}

impl Refusal {
    pub fn reply<T>(self) -> Reply<T>
        ensures { result ≡ reply_of self }
    {
        match self {
            Refusal::NoClass => Reply::NotFound,
            Refusal::Hidden(class) => Reply::NotAccessible { declarer: class },
            Refusal::Ring(class) => Reply::Cycle { at: class },
        }
    }
}
