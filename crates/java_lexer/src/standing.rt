use crate::fault::LexErr;

/// How a lexer stands.
#[derive(Clone, Copy)]
pub enum Standing {
    /// It takes bytes.
    Open,
    /// Its text has ended, and all tokens are told.
    Finished,
    /// It answers this for good.
    Refused(LexErr),
}
