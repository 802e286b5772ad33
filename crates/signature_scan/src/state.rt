//! What the bytes of a text so far can be of a signature: the states of the scan.
ghost use Rattle.std.specs.Prelude.{◌≡◌, ◌+◌, ◌<◌, ◌^◌};
ghost use Rattle.signature_scan.specs.Machine as machine;

use crate::part::{Part, is_name_byte};
use java_types::{Production, SigPlace, is_primitive};

/// What stands around a type that is in no type arguments.
#[derive(Clone, Copy)]
pub enum Around {
    /// The bounds of type parameters, with the rest of the signature at this place behind them.
    Bounds(SigPlace),
    Supertypes,
    Formals,
    /// A result or what is thrown.
    Throws,
    Nothing,
}

/// A state. A depth is the number of type arguments
/// that are open, whose types are in those around them.
#[derive(Clone, Copy)]
pub enum State {
    Start(SigPlace),
    /// A type parameter has to begin.
    Parameter(SigPlace),
    ParameterName(SigPlace),
    /// Behind the first `:` of a type parameter: a class
    /// bound, an interface bound or the next type parameter.
    FirstBound(SigPlace),
    /// Behind an `L` there and name bytes if begun: the
    /// name of a class or of the next type parameter.
    ClassOrName {
        place: SigPlace,
        begun: bool,
    },
    /// Behind a `T` there and name bytes if begun: a type
    /// variable or the name of the next type parameter.
    VariableOrName {
        place: SigPlace,
        begun: bool,
    },
    /// Formal parameters have to begin.
    Parenthesis,
    /// Behind a type or before the first of several.
    Behind {
        around: Around,
        depth: u32,
    },
    /// In a type.
    Within {
        part: Part,
        around: Around,
        depth: u32,
    },
}

impl State {
    /// Behind the type parameters.
    fn body(place: SigPlace) -> State
        ensures { result ≡ machine.body place }
    {
        match place {
            SigPlace::ClassPlace => State::wants(Production::ClassType, Around::Supertypes),
            SigPlace::MethodPlace => State::Parenthesis,
            SigPlace::FieldPlace => State::wants(Production::Reference, Around::Nothing),
        }
    }

    fn wants(wanted: Production, around: Around) -> State
        ensures { result ≡ machine.wants wanted around }
    {
        State::Within {
            part: Part::Type(wanted),
            around,
            depth: 0,
        }
    }

    /// What the next byte makes of it, if a signature goes on so.
    pub fn next(self, byte: u8) -> Option<State>
        requires { machine.depth_of self + 1 < 2 ^ 32 }
        ensures { result ≡ machine.next self byte }
    {
        match self {
            State::Start(place) => {
                if byte == b'<' && has_parameters(place) {
                    Some(State::Parameter(place))
                } else {
                    begun(place, byte)
                }
            }
            State::Parameter(place) => name_goes_on(place, byte),
            State::ParameterName(place) => in_parameter_name(place, byte),
            State::FirstBound(place) => behind_colon(place, byte),
            State::ClassOrName { place, begun } => in_class_or_name(place, begun, byte),
            State::VariableOrName { place, begun } => in_variable_or_name(place, begun, byte),
            State::Parenthesis => parenthesis(byte),
            State::Behind { around, depth } => behind(around, depth, byte),
            State::Within {
                part,
                around,
                depth,
            } => within(part, around, depth, byte),
        }
    }

    /// Whether a signature may end here.
    pub fn is_whole(self) -> bool
        ensures { result ≡ machine.is_whole self }
    {
        match self {
            State::Behind { around, depth } => depth == 0 && may_end(around),
            _ => false,
        }
    }

    /// How many type arguments are open.
    pub fn depth(self) -> u32
        ensures { result ≡ machine.depth_of self }
    {
        match self {
            State::Behind { around: _, depth } => depth,
            State::Within {
                part: _,
                around: _,
                depth,
            } => depth,
            _ => 0,
        }
    }
}

/// Whether a signature at this place may have type parameters.
fn has_parameters(place: SigPlace) -> bool
    ensures { result ≡ machine.has_parameters place }
{
    !matches!(place, SigPlace::FieldPlace)
}

fn may_end(around: Around) -> bool
    ensures { result ≡ machine.may_end around }
{
    matches!(
        around,
        Around::Supertypes | Around::Throws | Around::Nothing
    )
}

/// The first byte of what stands behind type parameters.
fn begun(place: SigPlace, byte: u8) -> Option<State>
    ensures { result ≡ machine.begun place byte }
{
    match place {
        SigPlace::ClassPlace => type_begins(Production::ClassType, Around::Supertypes, 0, byte),
        SigPlace::MethodPlace => parenthesis(byte),
        SigPlace::FieldPlace => type_begins(Production::Reference, Around::Nothing, 0, byte),
    }
}

fn parenthesis(byte: u8) -> Option<State>
    ensures { result ≡ machine.parenthesis byte }
{
    if byte == b'(' {
        Some(State::Behind {
            around: Around::Formals,
            depth: 0,
        })
    } else {
        None
    }
}

fn name_goes_on(place: SigPlace, byte: u8) -> Option<State>
    ensures { result ≡ machine.name_goes_on place byte }
{
    if is_name_byte(byte) {
        Some(State::ParameterName(place))
    } else {
        None
    }
}

fn in_parameter_name(place: SigPlace, byte: u8) -> Option<State>
    ensures { result ≡ machine.in_parameter_name place byte }
{
    if byte == b':' {
        Some(State::FirstBound(place))
    } else {
        name_goes_on(place, byte)
    }
}

/// Behind the first `:` of a type parameter.
fn behind_colon(place: SigPlace, byte: u8) -> Option<State>
    ensures { result ≡ machine.behind_colon place byte }
{
    match byte {
        b'L' => Some(State::ClassOrName {
            place,
            begun: false,
        }),
        b'T' => Some(State::VariableOrName {
            place,
            begun: false,
        }),
        b'[' => type_begins(Production::Reference, Around::Bounds(place), 0, byte),
        _ => behind_bound(place, byte),
    }
}

/// Behind a bound.
fn behind_bound(place: SigPlace, byte: u8) -> Option<State>
    ensures { result ≡ machine.behind_bound place byte }
{
    match byte {
        b':' => Some(State::wants(Production::Reference, Around::Bounds(place))),
        b'>' => Some(State::body(place)),
        _ => name_goes_on(place, byte),
    }
}

fn in_class_or_name(place: SigPlace, begun: bool, byte: u8) -> Option<State>
    ensures { result ≡ machine.in_class_or_name place begun byte }
{
    if is_name_byte(byte) {
        Some(State::ClassOrName { place, begun: true })
    } else if byte == b':' {
        Some(State::FirstBound(place))
    } else {
        in_class_name(begun, Around::Bounds(place), 0, byte)
    }
}

fn in_variable_or_name(place: SigPlace, begun: bool, byte: u8) -> Option<State>
    ensures { result ≡ machine.in_variable_or_name place begun byte }
{
    if is_name_byte(byte) {
        Some(State::VariableOrName { place, begun: true })
    } else if byte == b':' {
        Some(State::FirstBound(place))
    } else {
        in_variable_name(begun, Around::Bounds(place), 0, byte)
    }
}

/// The first byte of a type.
fn type_begins(wanted: Production, around: Around, depth: u32, byte: u8) -> Option<State>
    ensures { result ≡ machine.type_begins wanted around depth byte }
{
    let part = if byte == b'L' {
        Part::ClassName { begun: false }
    } else if byte == b'T' && wanted.allows_variable() {
        Part::VariableName { begun: false }
    } else if byte == b'[' && wanted.allows_array() {
        Part::Dimensions { more: u32::MAX - 1 }
    } else if (byte == b'V' && wanted.allows_void())
        || (is_primitive(byte) && wanted.allows_primitive())
    {
        return Some(State::Behind { around, depth });
    } else {
        return None;
    };
    Some(State::Within {
        part,
        around,
        depth,
    })
}

fn within(part: Part, around: Around, depth: u32, byte: u8) -> Option<State>
    requires { depth + 1 < 2 ^ 32 }
    ensures { result ≡ machine.within part around depth byte }
{
    match part {
        Part::Type(wanted) => type_begins(wanted, around, depth, byte),
        Part::Dimensions { more } => in_dimensions(more, around, depth, byte),
        Part::ClassName { begun } => in_class_name(begun, around, depth, byte),
        Part::InnerName { begun } => in_inner_name(begun, around, depth, byte),
        Part::VariableName { begun } => in_variable_name(begun, around, depth, byte),
        Part::Argument => argument_begins(around, depth, byte),
        Part::ArgumentsClosed => behind_name(around, depth, byte),
    }
}

fn in_dimensions(more: u32, around: Around, depth: u32, byte: u8) -> Option<State>
    ensures { result ≡ machine.in_dimensions more around depth byte }
{
    if byte != b'[' {
        return type_begins(Production::Element, around, depth, byte);
    }
    let part = Part::Dimensions {
        more: more.checked_sub(1)?,
    };
    Some(State::Within {
        part,
        around,
        depth,
    })
}

fn in_class_name(begun: bool, around: Around, depth: u32, byte: u8) -> Option<State>
    requires { depth + 1 < 2 ^ 32 }
    ensures { result ≡ machine.in_class_name begun around depth byte }
{
    let begun = if is_name_byte(byte) {
        true
    } else if begun && byte == b'/' {
        false
    } else if begun {
        return behind_class_name(around, depth, byte);
    } else {
        return None;
    };
    Some(State::Within {
        part: Part::ClassName { begun },
        around,
        depth,
    })
}

fn in_inner_name(begun: bool, around: Around, depth: u32, byte: u8) -> Option<State>
    requires { depth + 1 < 2 ^ 32 }
    ensures { result ≡ machine.in_inner_name begun around depth byte }
{
    if is_name_byte(byte) {
        Some(State::Within {
            part: Part::InnerName { begun: true },
            around,
            depth,
        })
    } else if begun {
        behind_class_name(around, depth, byte)
    } else {
        None
    }
}

/// Behind the name of a class, where type arguments may open.
fn behind_class_name(around: Around, depth: u32, byte: u8) -> Option<State>
    requires { depth + 1 < 2 ^ 32 }
    ensures { result ≡ machine.behind_class_name around depth byte }
{
    if byte == b'<' {
        Some(State::Within {
            part: Part::Argument,
            around,
            depth: depth + 1,
        })
    } else {
        behind_name(around, depth, byte)
    }
}

/// Behind a class with its type arguments.
fn behind_name(around: Around, depth: u32, byte: u8) -> Option<State>
    ensures { result ≡ machine.behind_name around depth byte }
{
    match byte {
        b'.' => Some(State::Within {
            part: Part::InnerName { begun: false },
            around,
            depth,
        }),
        b';' => Some(State::Behind { around, depth }),
        _ => None,
    }
}

fn in_variable_name(begun: bool, around: Around, depth: u32, byte: u8) -> Option<State>
    ensures { result ≡ machine.in_variable_name begun around depth byte }
{
    if is_name_byte(byte) {
        Some(State::Within {
            part: Part::VariableName { begun: true },
            around,
            depth,
        })
    } else if begun && byte == b';' {
        Some(State::Behind { around, depth })
    } else {
        None
    }
}

/// The first byte of a type argument.
fn argument_begins(around: Around, depth: u32, byte: u8) -> Option<State>
    ensures { result ≡ machine.argument_begins around depth byte }
{
    match byte {
        b'*' => Some(State::Behind { around, depth }),
        b'+' | b'-' => Some(State::Within {
            part: Part::Type(Production::Reference),
            around,
            depth,
        }),
        _ => type_begins(Production::Reference, around, depth, byte),
    }
}

fn behind(around: Around, depth: u32, byte: u8) -> Option<State>
    ensures { result ≡ machine.behind around depth byte }
{
    if depth == 0 {
        behind_outermost(around, byte)
    } else if byte == b'>' {
        Some(State::Within {
            part: Part::ArgumentsClosed,
            around,
            depth: depth - 1,
        })
    } else {
        argument_begins(around, depth, byte)
    }
}

/// Behind a type that is in no type arguments.
fn behind_outermost(around: Around, byte: u8) -> Option<State>
    ensures { result ≡ machine.behind_outermost around byte }
{
    match around {
        Around::Bounds(place) => behind_bound(place, byte),
        Around::Supertypes => type_begins(Production::ClassType, around, 0, byte),
        Around::Formals => behind_formal(byte),
        Around::Throws => {
            if byte == b'^' {
                Some(State::wants(Production::Thrown, around))
            } else {
                None
            }
        }
        Around::Nothing => None,
    }
}

fn behind_formal(byte: u8) -> Option<State>
    ensures { result ≡ machine.behind_formal byte }
{
    if byte == b')' {
        Some(State::wants(Production::AnyResult, Around::Throws))
    } else {
        type_begins(Production::AnyType, Around::Formals, 0, byte)
    }
}
