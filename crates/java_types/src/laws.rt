//! A text has one signature at a place, and one descriptor, and each of these has one text.
ghost use Rattle.std.specs.Prelude.{◌≡◌, ℕ, List, Some};
ghost use Rattle.java_types.specs.declared.production.SigPlace.{SigPlace};
ghost use Rattle.java_types.specs.declared.types.JSig.{JSig};
ghost use Rattle.java_types.specs.Descriptor.{DescriptorSpells};
ghost use Rattle.java_types.specs.Signature.{SignatureSpells};
ghost use Rattle.java_types.specs.Trees.{descriptor_of, signature_of};

/// A text has one signature at a place, however deep its type arguments are nested, and a
/// signature has one text.
pub fn one_signature()
    ensures tree { (place : SigPlace) (text : List ℕ) (one other : JSig)
        → SignatureSpells place one text
        → SignatureSpells place other text
        → one ≡ other }
    ensures text { (place : SigPlace) (sig : JSig) (one other : List ℕ)
        → SignatureSpells place sig one
        → SignatureSpells place sig other
        → one ≡ other }
{}

/// A text has one descriptor, and a descriptor has one text.
pub fn one_descriptor()
    ensures tree { (text : List ℕ) (one other : JSig)
        → DescriptorSpells one text
        → DescriptorSpells other text
        → one ≡ other }
    ensures text { (sig : JSig) (one other : List ℕ)
        → DescriptorSpells sig one
        → DescriptorSpells sig other
        → one ≡ other }
{}

/// The signature of a text is a function of the text, none where there is none.
pub fn signature_by_text()
    ensures found { (place : SigPlace) (text : List ℕ) (sig : JSig)
        → SignatureSpells place sig text
        → signature_of place text ≡ Some sig }
    ensures spelled { (place : SigPlace) (text : List ℕ) (sig : JSig)
        → signature_of place text ≡ Some sig
        → SignatureSpells place sig text }
{}

/// The descriptor of a text is a function of the text, none where there is none.
pub fn descriptor_by_text()
    ensures found { (text : List ℕ) (sig : JSig)
        → DescriptorSpells sig text
        → descriptor_of text ≡ Some sig }
    ensures spelled { (text : List ℕ) (sig : JSig)
        → descriptor_of text ≡ Some sig
        → DescriptorSpells sig text }
{}
