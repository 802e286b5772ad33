//! Packages by the names of their classes (JVMS 4.2.1).
ghost use Rattle.std.specs.Prelude.{◌≡◌};
ghost use Rattle.class_views.specs.Access.{package_of as package_of_name};
ghost use Rattle.class_views.specs.Access.{is_in_package as lies_in_package};

use hdr_core::Text;

/// Whether a class of a name lies in a package.
pub fn is_in_package(package: &Text, name: &Text) -> bool
    ensures { result ≡ lies_in_package «package».now name.now }
{
    package_of(name.bytes()) == package.bytes()
}

/// What stands before the last `/` of a binary name.
fn package_of(name: &[u8]) -> &[u8]
    ensures { result.now ≡ package_of_name name.now }
{
    let mut end = name.len();
    while end > 0 {
        if name[end - 1] == b'/' {
            return &name[..end - 1];
        }
        end -= 1;
    }
    &[]
}
