//! A lexer takes the bytes of a source in any pieces.
ghost use Rattle.std.specs.Prelude.{◌≡◌, ◌<◌, ◌+◌, ◌^◌, ◌++◌, [], Ok, Err, IfOk, IfErr, IsOkAnd};
ghost use Rattle.std.specs.Prelude.{MatchResult, length, ℕ};
ghost use Rattle.java_lexer.specs.Lexing.{lexed};
ghost use Rattle.java_lexer.specs.declared.fault.LexErr.{LexErr};
ghost use Rattle.java_lexer.specs.declared.standing.Standing.TheVariants as standing;
ghost use Rattle.java_lexer.specs.Feeding.{IfFault, IsHopeless, fed_more, finished, refused};

use crate::cut::{Cut, cut_pieces};
use crate::fault::{LexErr, LexFault, LexKind};
use crate::standing::Standing;
use java_text::{SourceText, source_text};
use java_token::Token;
use std::alloc::Global;
use std::marker::Model;

/// Takes the bytes of a source in any pieces, and tells its tokens (JLS chapter 3).
#[derive(Drop)]
pub struct Lexer {
    bytes: Vec<u8>,
    standing: Standing,
}

impl Model for Lexer {
    ghost use Rattle.java_lexer.specs.Feeding.{Fed, told_of};

    ghost Value = { Fed };

    ghost view = { λ lexer. record {
      fed = lexer.bytes.items;
      told = told_of lexer.standing lexer.bytes.items;
      standing = lexer.standing;
    } };
}

impl Lexer {
    /// A lexer that nothing has been fed to. Takes no memory.
    pub fn start(alloc: Global) -> Lexer
        ensures { result ≡ record { fed = []; told = []; standing = standing.Open } }
    {
        Lexer {
            bytes: Vec::new(alloc),
            standing: Standing::Open,
        }
    }

    /// Takes the next bytes, and tells the tokens that are told so far. It may keep all of them
    /// for `finish`.
    pub fn feed(&mut self, alloc: Global, piece: &[u8]) -> Result<Vec<Token>, LexErr>
        requires { length self.old.fed + length piece.now < 2 ^ 32 }
        ensures ok { self.old.standing ≡ standing.Open
            → IfOk result (λ tokens. self.new ≡ fed_more self.old piece.now tokens.items) }

        // A fault comes only where no continuation has tokens.
        ensures err { self.old.standing ≡ standing.Open
            → IfErr result (λ e. (self.new ≡ refused self.old e)
            × IfFault e (IsHopeless (self.old.fed ++ piece.now))) }
        ensures refused { (e : LexErr) → self.old.standing ≡ standing.Refused e
            → (result ≡ Err e) × (self.new ≡ self.old) }
        ensures finished { self.old.standing ≡ standing.Finished
            → IsOkAnd result (λ tokens. tokens.items ≡ []) × (self.new ≡ self.old) }
    {
        match self.standing {
            Standing::Refused(error) => Err(error),
            Standing::Finished => Ok(Vec::new(alloc)),
            Standing::Open => match self.bytes.extend_from_slice(piece) {
                Ok(()) => Ok(Vec::new(alloc)),
                Err(_) => {
                    self.standing = Standing::Refused(LexErr::Memory);
                    Err(LexErr::Memory)
                }
            },
        }
    }

    /// Ends the text, and tells the rest of its tokens.
    pub fn finish(&mut self, alloc: Global) -> Result<Vec<Token>, LexErr>
        requires { length self.old.fed < 2 ^ 32 }

        // All tokens that were told are those of all bytes that were fed.
        ensures ok { self.old.standing ≡ standing.Open
            → IfOk result (λ tokens. (lexed self.old.fed ≡ Ok (self.old.told ++ tokens.items))
            × (self.new ≡ finished self.old tokens.items)) }

        // A fault comes exactly where they have no tokens, and says why.
        ensures err { self.old.standing ≡ standing.Open
            → IfErr result (λ e. (self.new ≡ refused self.old e)
            × IfFault e (λ f. lexed self.old.fed ≡ Err f)) }
        ensures refused { (e : LexErr) → self.old.standing ≡ standing.Refused e
            → (result ≡ Err e) × (self.new ≡ self.old) }
        ensures finished { self.old.standing ≡ standing.Finished
            → IsOkAnd result (λ tokens. tokens.items ≡ []) × (self.new ≡ self.old) }
    {
        match self.standing {
            Standing::Refused(error) => Err(error),
            Standing::Finished => Ok(Vec::new(alloc)),
            Standing::Open => match lex(alloc, self.bytes.as_slice()) {
                Ok(tokens) => {
                    self.standing = Standing::Finished;
                    Ok(tokens)
                }
                Err(error) => {
                    self.standing = Standing::Refused(error);
                    Err(error)
                }
            },
        }
    }
}

/// The tokens of the bytes of a source (JLS chapter 3), or the line and the kind of its bad place.
pub fn lex(alloc: Global, bytes: &[u8]) -> Result<Vec<Token>, LexErr>
    requires { length bytes.now < 2 ^ 32 }
    ensures { MatchResult result (λ tokens. lexed bytes.now ≡ Ok tokens.items)
        (λ e. IfFault e (λ f. lexed bytes.now ≡ Err f)) }
{
    let SourceText { units, whole } = source_text(alloc, bytes)?;
    let Cut {
        tokens,
        at,
        line_ends,
    } = cut_pieces(alloc, units.as_slice())?;
    if at < units.len() {
        return Err(fault(line_ends, LexKind::NoToken));
    }
    if !whole {
        return Err(fault(line_ends, LexKind::Utf8));
    }
    Ok(tokens)
}

/// The fault behind so many line terminators.
fn fault(line_ends: usize, kind: LexKind) -> LexErr
    requires { line_ends + 1 < 2 ^ 32 }
    ensures { result ≡ LexErr.Fault (record { line = 1 + line_ends; kind = kind }) }
{
    LexErr::Fault(LexFault {
        line: (line_ends + 1) as u32,
        kind,
    })
}
