//! The verdict on a text is a function of the text, and so is how much of it begins a signature.
ghost use Rattle.std.specs.Prelude.{◌≡◌, ◌↔◌, ◌<◌, ◌^◌, ℕ, List, true};
ghost use Rattle.std.specs.List.{AllByRecursion};
ghost use Rattle.java_types.specs.declared.production.SigPlace.{SigPlace};
ghost use Rattle.java_types.specs.Signature.{SignatureSpells};
ghost use Rattle.java_types.specs.Spelling.{Begins, IsLongestBeginning};
ghost use Rattle.signature_scan.specs.declared.verdict.Verdict.{Verdict};
ghost use Rattle.signature_scan.specs.Beginning.{beginning, begins};
ghost use Rattle.signature_scan.specs.Scanned.{Scanned, verdict_of};

/// What may be told of bytes is the verdict on them, and nothing else may be.
pub fn verdict_by_text()
    ensures right { (place : SigPlace) (text : List ℕ)
        → AllByRecursion (λ b. b < 2 ^ 8) text
        → Scanned place text (verdict_of place text) }
    ensures only { (place : SigPlace) (text : List ℕ) (one other : Verdict)
        → Scanned place text one
        → Scanned place text other
        → one ≡ other }
{}

/// Whether bytes begin a signature, and the longest front of bytes that does.
pub fn beginning_by_text()
    ensures begins { (place : SigPlace) (text : List ℕ)
        → AllByRecursion (λ b. b < 2 ^ 8) text
        → (begins place text ≡ true) ↔ Begins (SignatureSpells place) text }
    ensures longest { (place : SigPlace) (text : List ℕ)
        → AllByRecursion (λ b. b < 2 ^ 8) text
        → IsLongestBeginning (SignatureSpells place) text (beginning place text) }
{}
