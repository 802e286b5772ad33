use hdr_core::List;
use java_token::Token;

/// What stands between neighbouring ends of a list of tokens: a declaration without its body.
#[cycle(segment)]
#[derive(Drop)]
pub struct Segment {
    /// The tokens before the end. Behind a `=` outside brackets each group in braces is its two
    /// braces alone.
    pub head: List<Token>,
    pub end: SegEnd,
}

/// How a segment ends.
#[cycle(segment)]
#[derive(Drop)]
pub enum SegEnd {
    Semi,
    /// A class body, cut too.
    Body(List<Segment>),
    /// Any other group in braces, and the line of its opening brace.
    Skipped { line: u32 },
    /// The list ends.
    Tail,
}
