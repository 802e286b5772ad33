//! The pieces of a text (JLS 3.2, 3.4).
ghost use Rattle.std.specs.Prelude.{◌≡◌, ◌≤◌, ◌<◌, ◌+◌, ◌^◌, ◌-◌, ◌++◌, ◌==◌, ◌||◌, ◌&&◌, not};
ghost use Rattle.std.specs.Prelude.{if◌then◌else◌, IfOk, OnOk, length, take, drop};
ghost use Rattle.java_lexer.specs.Tokens.{token_of};
ghost use Rattle.java_lexer.specs.Cutting.{IsCut, ends_begun, ends_in_return, tokens_at};

use crate::kind::Kind;
use crate::state::piece_at;
use crate::token::token;
use hdr_core::Memory;
use java_text::{CARRIAGE_RETURN, LINE_FEED};
use java_token::Token;
use std::alloc::Global;

/// How far a text can be cut into pieces.
#[derive(Drop)]
pub struct Cut {
    pub tokens: Vec<Token>,
    /// How many units were cut.
    pub at: usize,
    /// How many line terminators they have.
    pub line_ends: usize,
}

/// Cuts a text into its longest pieces, as far as it goes.
pub fn cut_pieces(alloc: Global, units: &[u16]) -> Result<Cut, Memory>
    requires { length units.now < 2 ^ 32 }
    ensures { IfOk result (λ cut. IsCut units.now cut) }
{
    let mut tokens = Vec::new(alloc);
    let mut at = 0;
    let mut place = Place {
        line_ends: 0,
        after_return: false,
    };
    while at < units.len() {
        match piece_at(&units[at..]) {
            None => {
                return Ok(Cut {
                    tokens,
                    at,
                    line_ends: place.line_ends,
                });
            }
            Some((length, kind)) => {
                let piece = &units[at..at + length];
                push_token(
                    alloc,
                    &mut tokens,
                    kind,
                    piece,
                    (place.line_ends + 1) as u32,
                )?;
                place = place.behind(piece);
                at += length;
            }
        }
    }
    Ok(Cut {
        tokens,
        at,
        line_ends: place.line_ends,
    })
}

/// Pushes the token that a piece on this line is, if it is one.
fn push_token(
    alloc: Global,
    tokens: &mut Vec<Token>,
    kind: Kind,
    piece: &[u16],
    line: u32,
) -> Result<(), Memory>
    ensures { OnOk result (tokens.new.items
        ≡ tokens.old.items ++ tokens_at (token_of kind piece.now) line) }
{
    if let Some(kind) = token(alloc, kind, piece)? {
        tokens.push(Token { kind, line })?;
    }
    Ok(())
}

/// A place in a text: the line terminators before it, and whether a CR is the last unit before it.
#[derive(Clone, Copy)]
pub struct Place {
    line_ends: usize,
    after_return: bool,
}

impl Place {
    /// The place behind these units.
    fn behind(self, units: &[u16]) -> Place
        requires { self.line_ends + length units.now < 2 ^ 64 }
        ensures ends { result.line_ends ≡ self.line_ends + ends_begun self.after_return units.now }
        ensures last { result.after_return ≡ ends_in_return self.after_return units.now }
        ensures bound { result.line_ends ≤ self.line_ends + length units.now }
    {
        let mut place = self;
        for unit in units {
            place = place.step(*unit);
        }
        place
    }

    /// The place behind one unit.
    fn step(self, unit: u16) -> Place
        requires { self.line_ends < 2 ^ 64 - 1 }
        ensures ends { result.line_ends
            ≡ (if unit == CARRIAGE_RETURN || (unit == LINE_FEED && not self.after_return) then 1
            else 0) + self.line_ends }
        ensures last { result.after_return ≡ (unit == CARRIAGE_RETURN) }
        ensures bound { result.line_ends ≤ self.line_ends + 1 }
    {
        let ends = unit == CARRIAGE_RETURN || unit == LINE_FEED && !self.after_return;
        Place {
            line_ends: if ends {
                self.line_ends + 1
            } else {
                self.line_ends
            },
            after_return: unit == CARRIAGE_RETURN,
        }
    }
}
