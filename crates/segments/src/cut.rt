ghost use Rattle.std.specs.Prelude.{◌≡◌};
ghost use Rattle.segments.specs.Answer.{Answers, Gives, segmented};

use crate::cutter::Cutter;
use crate::error::SegErr;
use crate::segment::Segment;
use hdr_core::List;
use java_token::Token;
use std::alloc::Global;

/// How many class bodies may stand in each other.
const MOST: u32 = 64;

/// The segments of these tokens: the declarations, with class bodies cut too and all other bodies
/// skipped (JLS 7.3, 7.6, 8.1, 9.1).
///
/// `Unbalanced` comes exactly where the brackets don't pair, and `TooDeep` exactly where they pair
/// and a class body stands in more than 64 class bodies, itself counted.
pub fn segments(alloc: Global, tokens: &[Token]) -> Result<List<Segment>, SegErr>
    ensures exact { Gives result (segmented 64 tokens.now) }
    ensures answers { Answers 64 tokens.now result }
{
    let mut cutter = Cutter::new(alloc, MOST);
    for token in tokens {
        cutter.push(alloc, token)?;
    }
    cutter.finish()
}
