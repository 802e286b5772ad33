//! Of several parts the first reason.
ghost use Rattle.std.specs.Prelude.{◌≡◌};
ghost use Rattle.std.specs.List.{list_any};
ghost use Rattle.const_values.specs.Combined as spec;

use crate::constant::{NoConstant, Outcome};

/// The reasons in their order.
const REASONS: [NoConstant; 4] = [
    NoConstant::NotConst,
    NoConstant::Range,
    NoConstant::TooLong,
    NoConstant::Unsupported,
];

/// Of several parts' outcomes the first reason that there is no constant, in the order of
/// [`NoConstant`]. None where each part is a constant. Every part counts, also one that an
/// operator doesn't choose.
pub fn combined(parts: &[Outcome]) -> Option<NoConstant>
    ensures { result ≡ spec.combined parts.now }
{
    REASONS
        .iter()
        .copied()
        .find(|reason| any_has(parts, *reason))
}

fn any_has(parts: &[Outcome], reason: NoConstant) -> bool
    ensures { result ≡ list_any (spec.has reason) parts.now }
{
    parts.iter().any(|part| has(reason, part))
}

fn has(reason: NoConstant, part: &Outcome) -> bool
    ensures { result ≡ spec.has reason part.now }
{
    match part {
        Ok(_) => false,
        Err(other) => *other as u8 == reason as u8,
    }
}
