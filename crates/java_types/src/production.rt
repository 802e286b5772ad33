//! What the grammar of signatures asks of a type, and where a signature stands.
ghost use Rattle.std.specs.Prelude.{◌≡◌};
ghost use Rattle.java_types.specs.Descriptor.{is_primitive as is_primitive_letter};
ghost use Rattle.java_types.specs.Signature.{allows_void, allows_primitive, allows_variable};
ghost use Rattle.java_types.specs.Signature.{allows_array};

/// The productions of JVMS 4.7.9.1 that a type may have to follow.
#[derive(Clone, Copy, Debug, PartialEq, Eq)]
pub enum Production {
    /// Result: any type, or `void`.
    AnyResult,
    /// JavaTypeSignature: any type.
    AnyType,
    /// ReferenceTypeSignature: a class, a type variable or an array.
    Reference,
    /// ThrowsSignature: a class or a type variable.
    Thrown,
    /// ClassTypeSignature.
    ClassType,
    /// The element of an array type with all its dimensions: any type but an array.
    Element,
}

impl Production {
    pub fn allows_void(self) -> bool
        ensures { result ≡ allows_void self }
    {
        matches!(self, Production::AnyResult)
    }

    pub fn allows_primitive(self) -> bool
        ensures { result ≡ allows_primitive self }
    {
        matches!(
            self,
            Production::AnyResult | Production::AnyType | Production::Element
        )
    }

    pub fn allows_variable(self) -> bool
        ensures { result ≡ allows_variable self }
    {
        !matches!(self, Production::ClassType)
    }

    pub fn allows_array(self) -> bool
        ensures { result ≡ allows_array self }
    {
        matches!(
            self,
            Production::AnyResult | Production::AnyType | Production::Reference
        )
    }
}

/// Where a signature stands.
#[derive(Clone, Copy, Debug, PartialEq, Eq)]
pub enum SigPlace {
    ClassPlace,
    MethodPlace,
    FieldPlace,
}

/// Whether the byte is the letter of a primitive type (JVMS 4.3.2).
pub fn is_primitive(letter: u8) -> bool
    ensures { result ≡ is_primitive_letter letter }
{
    matches!(
        letter,
        b'B' | b'C' | b'D' | b'F' | b'I' | b'J' | b'S' | b'Z'
    )
}
