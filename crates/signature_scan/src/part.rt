//! What may stand in a type.
ghost use Rattle.std.specs.Prelude.{◌≡◌};
ghost use Rattle.signature_scan.specs.Machine.{is_name_byte as can_stand_in_name};

use java_types::Production;

/// Where in a type the scan is.
#[derive(Clone, Copy)]
pub enum Part {
    /// A type begins.
    Type(Production),
    /// Behind dimensions of an array, of which so many more may follow.
    Dimensions { more: u32 },
    /// In an identifier of a class's binary name, which has bytes or none yet.
    ClassName { begun: bool },
    /// In the name of a class behind the type arguments of the one around it.
    InnerName { begun: bool },
    VariableName { begun: bool },
    /// A type argument begins.
    Argument,
    /// Behind the `>` of type arguments.
    ArgumentsClosed,
}

/// Whether the byte can stand in an identifier.
pub fn is_name_byte(byte: u8) -> bool
    ensures { result ≡ can_stand_in_name byte }
{
    !matches!(byte, b'.' | b';' | b'[' | b'/' | b'<' | b'>' | b':')
}
