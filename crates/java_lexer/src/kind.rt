use java_token::OpTok;

/// What a piece of the text is.
#[derive(Clone, Copy)]
pub enum Kind {
    /// White space or a comment (JLS 3.6, 3.7).
    Blank,
    /// An identifier or a keyword (JLS 3.8, 3.9).
    Word,
    /// An integer literal (JLS 3.10.1).
    Integer,
    /// A floating-point literal (JLS 3.10.2).
    FloatingPoint,
    /// A character literal (JLS 3.10.4).
    Character,
    /// A string literal (JLS 3.10.5).
    String,
    /// A text block (JLS 3.10.6).
    TextBlock,
    /// A separator or an operator (JLS 3.11, 3.12).
    Operator(OpTok),
}
