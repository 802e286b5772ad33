use crate::part::ModifierWord;
use java_ast::AnnTree;

/// A modifier (JLS 8.1.1, 8.3.1, 8.4.3, 8.8.3, 9.1.1, 9.4).
#[derive(Drop)]
pub enum Modifier {
    Annotation(AnnTree),
    Keyword(ModifierWord),
    Sealed,
    /// `non-sealed`, which is three tokens.
    NonSealed,
}
