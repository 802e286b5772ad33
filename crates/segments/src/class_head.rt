ghost use Rattle.std.specs.Prelude.{◌≡◌, ◌+◌, ◌<◌, ◌^◌, ◌==◌, ◌&&◌, not, if◌then◌else◌};
ghost use Rattle.segments.specs.Cut.{is_class_head};
ghost use Rattle.segments.specs.Words.{begins_class};

use crate::bracket::Mark;
use crate::words::{begins_class, is_dot};
use java_token::Token;

/// The group behind this head is a class body: outside brackets, and not behind `.`, stands
/// `class`, `interface`, `enum`, or `record` and a name with `(` or `<` behind it.
pub fn is_class_head(head: &[Token]) -> bool
    ensures { result ≡ is_class_head head.now }
{
    let mut opened: usize = 0;
    let mut closed: usize = 0;
    let mut is_behind_dot = false;
    for at in 0..head.len() {
        if declares_class(opened, closed, is_behind_dot, &head[at..]) {
            return true;
        }
        let token = &head[at];
        let mark = Mark::of(token);
        opened = counted(opened, mark.is_opening());
        closed = counted(closed, mark.is_closing());
        is_behind_dot = is_dot(token);
    }
    false
}

/// `opened` and `closed` brackets stand before the place, and these tokens behind it.
fn declares_class(opened: usize, closed: usize, is_behind_dot: bool, behind: &[Token]) -> bool
    ensures { result ≡ ((opened == closed) && not is_behind_dot && begins_class behind.now) }
{
    opened == closed && !is_behind_dot && begins_class(behind)
}

fn counted(count: usize, is_one_more: bool) -> usize
    requires { count < 2 ^ 63 }
    ensures { result ≡ (if is_one_more then count + 1 else count) }
{
    if is_one_more { count + 1 } else { count }
}
