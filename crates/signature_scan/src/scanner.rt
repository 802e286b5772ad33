ghost use Rattle.std.specs.Prelude.{◌≡◌, ◌<◌, ◌^◌, length};
ghost use Rattle.signature_scan.specs.Machine as machine;
ghost use Rattle.signature_scan.specs.Scanned.{Scanned, verdict_of};

use crate::state::State;
use crate::verdict::Verdict;
use java_types::{NESTING_LIMIT, SigPlace};

/// Whether the text is a signature at the place, in the grammar of JVMS 4.7.9.1. One pass over
/// its bytes, without recursion and without memory. A number of dimensions is one of 32 bits.
pub fn scan(text: &[u8], place: SigPlace) -> Verdict
    requires { length text.now < 2 ^ 32 }
    ensures scanned { Scanned place text.now result }
    ensures by_text { result ≡ verdict_of place text.now }
{
    let mut state = State::Start(place);
    let mut too_deep = None;
    for (index, byte) in text.iter().enumerate() {
        let at = index as u32;
        match state.next(*byte) {
            Some(next) => {
                state = next;
                too_deep = first_too_deep(too_deep, next, at);
            }
            None => return Verdict::BadText { at },
        }
    }
    if !state.is_whole() {
        return Verdict::BadText {
            at: text.len() as u32,
        };
    }
    match too_deep {
        None => Verdict::Fine,
        Some(at) => Verdict::TooDeep { at },
    }
}

/// Where type arguments were first nested too deep, once the byte at `at` has led to the state.
fn first_too_deep(known: Option<u32>, state: State, at: u32) -> Option<u32>
    ensures { result ≡ machine.deeper known state at }
{
    match known {
        Some(first) => Some(first),
        None => {
            if state.depth() > NESTING_LIMIT {
                Some(at)
            } else {
                None
            }
        }
    }
}
