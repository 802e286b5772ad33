ghost use Rattle.std.specs.Prelude.{◌≡◌, not, codes};
ghost use Rattle.std.specs.List.{list_all};
ghost use Rattle.java_names.specs.Names.{is_among, is_class_name as is_class_name_of};
ghost use Rattle.java_names.specs.Names.{is_field_name as is_field_name_of};
ghost use Rattle.java_names.specs.Names.{is_method_name as is_method_name_of};
ghost use Rattle.java_names.specs.Names.{is_identifier as is_identifier_of};

/// The binary name of a class, with `/` between its parts (JVMS 4.2.1).
pub fn is_class_name(name: &[u8]) -> bool
    ensures { result ≡ is_class_name_of name.now }
{
    name.split(|b| *b == b'/').all(is_field_name)
}

/// An unqualified name (JVMS 4.2.2).
pub fn is_field_name(name: &[u8]) -> bool
    ensures { result ≡ is_field_name_of name.now }
{
    !name.is_empty() && has_no_separator(name)
}

/// An unqualified name without `<` and `>`, or `<init>` or `<clinit>` (JVMS 4.2.2).
pub fn is_method_name(name: &[u8]) -> bool
    ensures { result ≡ is_method_name_of name.now }
{
    if name == b"<init>".as_slice() || name == b"<clinit>".as_slice() {
        return true;
    }
    is_field_name(name) && has_no_angle(name)
}

/// An identifier of signatures: not empty, and without the bytes `. ; [ / < > :` (JVMS 4.7.9.1).
pub fn is_identifier(name: &[u8]) -> bool
    ensures { result ≡ is_identifier_of name.now }
{
    !name.is_empty() && has_no_end(name)
}

fn has_no_end(name: &[u8]) -> bool
    ensures { result ≡ list_all (λ b. not (is_among (codes ".;[/<>:") b)) name.now }
{
    name.iter().all(|b| !ends_identifier(*b))
}

fn ends_identifier(b: u8) -> bool
    ensures { result ≡ is_among (codes ".;[/<>:") b }
{
    matches!(b, b'.' | b';' | b'[' | b'/' | b'<' | b'>' | b':')
}

fn has_no_separator(name: &[u8]) -> bool
    ensures { result ≡ list_all (λ b. not (is_among (codes ".;[/") b)) name.now }
{
    name.iter().all(|b| !is_separator(*b))
}

fn has_no_angle(name: &[u8]) -> bool
    ensures { result ≡ list_all (λ b. not (is_among (codes "<>") b)) name.now }
{
    name.iter().all(|b| !is_angle(*b))
}

fn is_separator(b: u8) -> bool
    ensures { result ≡ is_among (codes ".;[/") b }
{
    matches!(b, b'.' | b';' | b'[' | b'/')
}

fn is_angle(b: u8) -> bool
    ensures { result ≡ is_among (codes "<>") b }
{
    matches!(b, b'<' | b'>')
}
