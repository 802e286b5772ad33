use java_ast::{BinOp, Primitive, UnOp};

/// What a token is to the grammar of declarations: each token is one of these.
///
/// Contextual keywords are words, of which `sealed` alone is a part of its own. `+` and `-` are
/// binary operators, which may stand as unary ones too; `<`, `>`, `>>` and `>>>` are binary
/// operators, which may stand as angles too.
#[derive(Clone, Copy, PartialEq, Eq)]
pub enum Part {
    Word,
    /// The word `sealed`, which begins a type only before a further word (JLS 3.9).
    Sealed,
    /// A literal, `true`, `false` and `null` among them.
    Literal,
    Primitive(Primitive),
    Void,
    Modifier(ModifierWord),
    Opening(Pair),
    Closing(Pair),
    Binary(BinOp),
    /// A unary operator that is no binary one: `!` or `~`.
    Unary(UnOp),
    /// An operator that stands in no constant expression (JLS 15.29): `->`, `++`, `--` or a
    /// compound assignment.
    OtherOperator,
    Question,
    Colon,
    DoubleColon,
    Dot,
    Ellipsis,
    Comma,
    Semicolon,
    At,
    Assign,
    Class,
    Interface,
    Enum,
    Package,
    Import,
    Extends,
    Implements,
    Throws,
    Super,
    This,
    New,
    Instanceof,
    /// Every other keyword.
    Other,
}

/// A keyword that is a modifier (JLS 8.1.1, 8.3.1, 8.4.3, 9.4).
#[derive(Clone, Copy, PartialEq, Eq)]
pub enum ModifierWord {
    Public,
    Protected,
    Private,
    Abstract,
    Static,
    Final,
    Transient,
    Volatile,
    Synchronized,
    Native,
    Strictfp,
    Default,
}

/// The pairs of brackets (JLS 3.11).
#[derive(Clone, Copy, PartialEq, Eq)]
pub enum Pair {
    Parentheses,
    Brackets,
    Braces,
}
