use std::marker::Brand;

/// The list of a table's answers, one for each word, which contracts alone see: no value has it.
///
/// Whoever wants a table picks it, by passing `Brand` to a function that starts the table, uses
/// and closes it, and has no `L` in the types of its signature.
pub trait Listing {
    ghost use Rattle.std.specs.Prelude.{List, ℕ};

    ghost listed: { List ℕ };
}

impl Listing for Brand {
    ghost use Rattle.std.specs.Prelude.{[]};

    ghost listed = { [] };
}
