//! Laws of tokens.
ghost use Rattle.std.specs.Prelude.{◌≡◌, ℕ, List, Ok};
ghost use Rattle.java_token.specs.declared.token.Token.{Token};
ghost use Rattle.java_lexer.specs.Lexing.{lexed};
ghost use Rattle.java_lexer.specs.Sound.{AreSound};

/// Each word that a source has is an identifier in modified UTF-8 and no keyword, and each text is
/// modified UTF-8.
pub fn tokens_are_sound()
    ensures { (bytes : List ℕ) (tokens : List Token) → lexed bytes ≡ Ok tokens → AreSound tokens }
{}
