ghost use Rattle.std.specs.Prelude.{◌≡◌, find};
ghost use Rattle.java_names.specs.Names.{is_text};
ghost use Rattle.questions.specs.Kinds.{option_of, kind_of, word_of};

/// What a question asks for. Each kind has an option of its own.
#[derive(Clone, Copy, PartialEq, Eq)]
pub enum Kind {
    Type,
    Supers,
    Field,
    Method,
    InterfaceMethod,
    Constant,
    Annotations,
}

pub const TYPE: &[u8] = b"--type";

pub const SUPERS: &[u8] = b"--supers";

pub const FIELD: &[u8] = b"--field";

pub const METHOD: &[u8] = b"--method";

pub const INTERFACE_METHOD: &[u8] = b"--imethod";

pub const CONSTANT: &[u8] = b"--constant";

pub const ANNOTATIONS: &[u8] = b"--annotations";

pub const KINDS: [Kind; 7] = [
    Kind::Type,
    Kind::Supers,
    Kind::Field,
    Kind::Method,
    Kind::InterfaceMethod,
    Kind::Constant,
    Kind::Annotations,
];

impl Kind {
    /// The option.
    pub fn option(self) -> &'static [u8]
        ensures { result.now ≡ option_of self }
    {
        match self {
            Kind::Type => TYPE,
            Kind::Supers => SUPERS,
            Kind::Field => FIELD,
            Kind::Method => METHOD,
            Kind::InterfaceMethod => INTERFACE_METHOD,
            Kind::Constant => CONSTANT,
            Kind::Annotations => ANNOTATIONS,
        }
    }

    /// The option without its `--`.
    pub fn word(self) -> &'static [u8]
        ensures { result.now ≡ word_of self }
    {
        match self.option() {
            [_, _, word @ ..] => word,
            _ => b"",
        }
    }

    /// The kind of questions that an option asks, if it asks any.
    #[tactic(auto, unfolding(crate::specs::Kinds::kind_of))]
    pub fn of_option(option: &[u8]) -> Option<Kind>
        ensures { result ≡ kind_of option.now }
    {
        kind_among(&KINDS, option)
    }

    fn has_option(&self, option: &[u8]) -> bool
        ensures { result ≡ is_text (option_of self.now) option.now }
    {
        self.option() == option
    }
}

/// The first kind that has the option.
fn kind_among(kinds: &[Kind], option: &[u8]) -> Option<Kind>
    ensures { result ≡ find (λ kind. is_text (option_of kind) option.now) kinds.now }
{
    for kind in kinds {
        if kind.has_option(option) {
            return Some(*kind);
        }
    }
    None
}
