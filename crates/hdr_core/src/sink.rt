ghost use Rattle.std.specs.Prelude.{◌≡◌, ℕ, ◌≤◌, ◌<◌, ◌^◌, Option, List, take, length, IfOk};
ghost use Rattle.std.specs.Prelude.{OnOk, OnErr};
ghost use Rattle.hdr_core.specs.Causes.{CountsFault, grown, GrewByFront};

use crate::errors::CallErr;

/// What takes bytes, as standard output does.
pub trait Sink {
    /// What it was told so far, where the sink says it.
    ghost told: { Self → Option (List ℕ) };

    /// How many of its calls failed. The count stands still at the end of 64 bits.
    ghost faults: { Self → ℕ };

    /// Takes the first bytes of the piece, and answers how many: at least one of a piece that
    /// isn't empty.
    fn write(&mut self, piece: &[u8]) -> Result<usize, CallErr>
        ensures within { IfOk result (λ count. count ≤ length piece.now) }
        ensures some { IfOk result (λ count. 0 < length piece.now → 0 < count) }
        ensures bytes { IfOk result (λ count.
            told self.new ≡ grown (told self.old) (take count piece.now)) }
        ensures refused { OnErr result (told self.new ≡ told self.old) }
        ensures faults { CountsFault faults self.old self.new result CallErr.Failed }
        ensures bounded { faults self.new < 2 ^ 64 };
}

/// Writes the whole piece. An empty piece is not written at all.
///
/// After a refusal the sink was told a front of the piece.
pub fn write_whole<S: Sink>(piece: &[u8], sink: &mut S) -> Result<(), CallErr>
    ensures ok { OnOk result (S.told sink.new ≡ grown (S.told sink.old) piece.now) }
    ensures err { OnErr result (GrewByFront (S.told sink.old) (S.told sink.new) piece.now) }
    ensures faults { CountsFault S.faults sink.old sink.new result CallErr.Failed }
{
    let mut at = 0;
    while at < piece.len() {
        at += sink.write(&piece[at..])?;
    }
    Ok(())
}
