//! Keywords (JLS 3.9).
ghost use Rattle.std.specs.Prelude.{◌≡◌, map};
ghost use Rattle.java_lexer.specs.Keywords.{keyword_of, look_up};

use java_token::Kw;

/// The keyword of this text, if it is one.
pub fn keyword(word: &[u8]) -> Option<Kw>
    ensures { result ≡ keyword_of word.now }
{
    match word.len() {
        0..=3 => find(&SHORT, word),
        4 => find(&OF_FOUR, word),
        5 => find(&OF_FIVE, word),
        6 => find(&OF_SIX, word),
        7 => find(&OF_SEVEN, word),
        _ => find(&LONG, word),
    }
}

/// The keyword of the entry that has this text.
fn find(entries: &[(&str, Kw)], word: &[u8]) -> Option<Kw>
    ensures { result ≡ look_up (map (λ entry. (entry.0.now, entry.1)) entries.now) word.now }
{
    for (text, keyword) in entries {
        if word == text.as_bytes() {
            return Some(*keyword);
        }
    }
    None
}

/// The keywords of at most three characters.
const SHORT: [(&str, Kw); 7] = [
    ("do", Kw::Do),
    ("for", Kw::For),
    ("if", Kw::If),
    ("int", Kw::Int),
    ("new", Kw::New),
    ("try", Kw::Try),
    ("_", Kw::Underscore),
];

const OF_FOUR: [(&str, Kw); 11] = [
    ("byte", Kw::Byte),
    ("case", Kw::Case),
    ("char", Kw::Char),
    ("else", Kw::Else),
    ("enum", Kw::Enum),
    ("goto", Kw::Goto),
    ("long", Kw::Long),
    ("null", Kw::Null),
    ("this", Kw::This),
    ("true", Kw::True),
    ("void", Kw::Void),
];

const OF_FIVE: [(&str, Kw); 11] = [
    ("break", Kw::Break),
    ("catch", Kw::Catch),
    ("class", Kw::Class),
    ("const", Kw::Const),
    ("false", Kw::False),
    ("final", Kw::Final),
    ("float", Kw::Float),
    ("short", Kw::Short),
    ("super", Kw::Super),
    ("throw", Kw::Throw),
    ("while", Kw::While),
];

const OF_SIX: [(&str, Kw); 9] = [
    ("assert", Kw::Assert),
    ("double", Kw::Double),
    ("import", Kw::Import),
    ("native", Kw::Native),
    ("public", Kw::Public),
    ("return", Kw::Return),
    ("static", Kw::Static),
    ("switch", Kw::Switch),
    ("throws", Kw::Throws),
];

const OF_SEVEN: [(&str, Kw); 6] = [
    ("boolean", Kw::Boolean),
    ("default", Kw::Default),
    ("extends", Kw::Extends),
    ("finally", Kw::Finally),
    ("package", Kw::Package),
    ("private", Kw::Private),
];

/// The keywords of eight characters or more.
const LONG: [(&str, Kw); 10] = [
    ("abstract", Kw::Abstract),
    ("continue", Kw::Continue),
    ("implements", Kw::Implements),
    ("instanceof", Kw::Instanceof),
    ("interface", Kw::Interface),
    ("protected", Kw::Protected),
    ("strictfp", Kw::Strictfp),
    ("synchronized", Kw::Synchronized),
    ("transient", Kw::Transient),
    ("volatile", Kw::Volatile),
];
