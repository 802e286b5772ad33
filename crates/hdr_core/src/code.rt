ghost use Rattle.std.specs.Prelude.{◌≡◌};
ghost use Rattle.hdr_core.specs.Codes.{place_of, code_name, code_text, code_order, StandsInPlace};

use std::cmp::Ordering;

/// What a diagnostic is about. The order is that in which they are printed for one line.
///
/// S0 stands while some sources are not read yet.
#[derive(Clone, Copy, Debug, PartialEq, Eq)]
pub enum Code {
    L1,
    L7,
    L8,
    L10,
    F1,
    F2,
    F3,
    F4,
    F5,
    F6,
    F7,
    F8,
    F9,
    F10,
    F11,
    F12,
    F13,
    S0,
    S1,
    S2,
    S3,
    S4,
    S5,
    S6,
    C1,
    C2,
    H1,
    H2,
    H3,
    H4,
    H5,
    H6,
    T1,
    T2,
    T3,
    T4,
    T5,
    T6,
    K1,
    K2,
    K3,
    K4,
    A1,
    A2,
    A3,
    A4,
    A5,
    A6,
    M1,
    M2,
    M3,
    M4,
    B1,
    L2,
    L3,
    L4,
    L5,
    L6,
    L9,
}

/// Each code, in their order, with its name and with what it says.
pub const CODES: [(Code, &[u8], &[u8]); 59] = [
    (Code::L1, b"L1", b"file is longer than 16777216 bytes"),
    (Code::L7, b"L7", b"more than 1073741824 bytes in all"),
    (Code::L8, b"L8", b"more than 1048576 files"),
    (Code::L10, b"L10", b"no such file"),
    (Code::F1, b"F1", b"class file is cut short"),
    (Code::F2, b"F2", b"not a class file"),
    (Code::F3, b"F3", b"unsupported version"),
    (Code::F4, b"F4", b"unknown pool tag"),
    (Code::F5, b"F5", b"wrong pool entry"),
    (Code::F6, b"F6", b"malformed text"),
    (
        Code::F7,
        b"F7",
        b"malformed name, descriptor, signature or value tag",
    ),
    (Code::F8, b"F8", b"attribute length is wrong"),
    (Code::F9, b"F9", b"repeated member or attribute"),
    (Code::F10, b"F10", b"bytes after the end"),
    (Code::F11, b"F11", b"wrong superclass or module flag"),
    (Code::F12, b"F12", b"nested too deeply"),
    (Code::F13, b"F13", b"too much text"),
    (Code::S0, b"S0", b"not read in this stage"),
    (Code::S1, b"S1", b"no token here"),
    (Code::S2, b"S2", b"no declaration here"),
    (Code::S3, b"S3", b"nested too deeply"),
    (Code::S4, b"S4", b"bracket without partner"),
    (Code::S5, b"S5", b"not UTF-8"),
    (Code::S6, b"S6", b"this file is not read"),
    (Code::C1, b"C1", b"declared twice"),
    (Code::C2, b"C2", b"import names no class"),
    (Code::H1, b"H1", b"no class of this name"),
    (Code::H2, b"H2", b"name is ambiguous"),
    (Code::H3, b"H3", b"class is not accessible"),
    (Code::H4, b"H4", b"class file is broken"),
    (Code::H5, b"H5", b"wrong kind of supertype"),
    (Code::H6, b"H6", b"class depends on itself"),
    (Code::T1, b"T1", b"no class of this name"),
    (Code::T2, b"T2", b"name is ambiguous"),
    (Code::T3, b"T3", b"class is not accessible"),
    (Code::T4, b"T4", b"class file is broken"),
    (Code::T5, b"T5", b"member declared twice"),
    (Code::T6, b"T6", b"bound depends on itself"),
    (Code::K1, b"K1", b"float or double constant"),
    (Code::K2, b"K2", b"literal out of range"),
    (Code::K3, b"K3", b"constant does not fit"),
    (Code::K4, b"K4", b"constant text is too long"),
    (Code::A1, b"A1", b"no accessible annotation type"),
    (Code::A2, b"A2", b"no annotation type or no such element"),
    (Code::A3, b"A3", b"wrong annotation value"),
    (Code::A4, b"A4", b"annotation may not be repeated"),
    (Code::A5, b"A5", b"annotation does not apply here"),
    (Code::A6, b"A6", b"float or double annotation value"),
    (Code::M1, b"M1", b"no module declaration here"),
    (Code::M2, b"M2", b"no class of this name"),
    (Code::M3, b"M3", b"named twice"),
    (Code::M4, b"M4", b"directive not allowed"),
    (Code::B1, b"B1", b"wrong script line"),
    (Code::L2, b"L2", b"too many parameter slots"),
    (Code::L3, b"L3", b"too many array dimensions"),
    (Code::L4, b"L4", b"constant pool is full"),
    (Code::L5, b"L5", b"text is too long"),
    (Code::L6, b"L6", b"class name is no file name"),
    (Code::L9, b"L9", b"list is too long"),
];

impl Code {
    /// The code as it is printed.
    pub fn name(self) -> &'static [u8]
        ensures name { result.now ≡ code_name self }
        ensures place { StandsInPlace self }
    {
        CODES[self as usize].1
    }

    /// What the code says.
    pub fn text(self) -> &'static [u8]
        ensures { result.now ≡ code_text self }
    {
        CODES[self as usize].2
    }
}

impl Ord for Code {
    ghost use Rattle.std.proofs.Common.{rules};
    ghost use Rattle.std.specs.Cmp.{unsigned_ties};
    ghost use Rattle.std.specs.Cmp.Rules.{comparing};

    ghost cmp = { code_order };

    ghost total = { Prim.search (comparing, rules) };

    ghost matches_partial_cmp = { Prim.search (comparing, rules) };

    ghost matches_eq = { λ code other. unsigned_ties (place_of code) (place_of other) };

    fn cmp(&self, other: &Code) -> Ordering {
        (*self as usize).cmp(&(*other as usize))
    }
}

impl PartialOrd for Code {
    ghost use Rattle.std.proofs.Common.{rules};
    ghost use Rattle.std.specs.Cmp.{partial_order_from_own_ties, unsigned_ties};
    ghost use Rattle.std.specs.Cmp.Rules.{comparing};
    ghost use Rattle.std.specs.Ordering.{as_partial_cmp};

    ghost partial_cmp = { as_partial_cmp code_order };

    ghost laws = { partial_order_from_own_ties
        (Prim.search (comparing, rules))
        (λ code other. unsigned_ties (place_of code) (place_of other)) };

    fn partial_cmp(&self, other: &Code) -> Option<Ordering> {
        Some(self.cmp(other))
    }
}
