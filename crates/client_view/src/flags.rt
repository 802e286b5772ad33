//! The flags of classes, fields and methods (JVMS tables 4.1-B, 4.5-A, 4.6-A).
ghost use Rattle.std.specs.Prelude.{◌≡◌};
ghost use Rattle.class_views.specs.Flags.{has_flag as has_flag_of};

pub const PUBLIC: u16 = 0x0001;

pub const PRIVATE: u16 = 0x0002;

pub const PROTECTED: u16 = 0x0004;

pub const STATIC: u16 = 0x0008;

pub const FINAL: u16 = 0x0010;

pub const INTERFACE: u16 = 0x0200;

pub const ABSTRACT: u16 = 0x0400;

pub fn has_flag(flag: u16, flags: u16) -> bool
    ensures { result ≡ has_flag_of flag flags }
{
    flags & flag != 0
}
