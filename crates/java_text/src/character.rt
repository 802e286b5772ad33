//! Characters that the lexical grammar names (JLS 3.3 to 3.6, 3.10), as UTF-16 units.

pub const TAB: u16 = 0x09;

pub const LINE_FEED: u16 = 0x0A;

pub const FORM_FEED: u16 = 0x0C;

pub const CARRIAGE_RETURN: u16 = 0x0D;

/// Control-Z, which may stand last in a text (JLS 3.5).
pub const SUBSTITUTE: u16 = 0x1A;

pub const SPACE: u16 = b' ' as u16;

pub const QUOTATION_MARK: u16 = b'"' as u16;

pub const APOSTROPHE: u16 = b'\'' as u16;

pub const BACKSLASH: u16 = b'\\' as u16;

pub const LETTER_U: u16 = b'u' as u16;

pub const ASTERISK: u16 = b'*' as u16;

pub const SLASH: u16 = b'/' as u16;

pub const LOW_LINE: u16 = b'_' as u16;
