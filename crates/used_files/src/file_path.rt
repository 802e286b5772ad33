//! Paths of files, compared by their bytes.
ghost use Rattle.std.specs.Prelude.{◌≡◌, ℕ, Some, nat_eq, refl, string_bytes};
ghost use Rattle.std.specs.Ordering.{nat_cmp};
ghost use Rattle.std.specs.Cmp.Lexicographic.{slice_cmp};
ghost use Rattle.std.specs.Cmp as Cmp;
ghost use Rattle.std.specs.Cmp.Rules.{comparing};
ghost use Rattle.std.proofs.Common.{rules};
ghost use Rattle.std.proofs.lemmas.Cmp.{nat_list_eq_equiv, nat_list_cmp_total};
ghost use lib.Pointwise.{pointwise};

use std::cmp::Ordering;
use std::marker::Model;

/// A path with `/` between its parts. Contracts see its bytes.
#[derive(Drop)]
pub struct FilePath {
    text: String,
}

impl Model for FilePath {
    ghost use Rattle.std.specs.Prelude.{List, ℕ, string_bytes};

    ghost Value = { List ℕ };

    ghost view = { λ path. string_bytes path.text };
}

impl FilePath {
    pub fn as_str(&self) -> &str
        ensures { result.now ≡ self.now }
    {
        self.text.as_str()
    }

    /// Takes no memory.
    pub fn into_string(self) -> String
        ensures { string_bytes result ≡ self }
    {
        let FilePath { text } = self;
        text
    }
}

impl From<String> for FilePath {
    ghost use Rattle.std.specs.Prelude.{◌≡◌, string_bytes};

    ghost from_gives = { λ text path. path ≡ string_bytes text };

    /// Takes no memory.
    fn from(text: String) -> FilePath {
        FilePath { text }
    }
}

impl PartialEq for FilePath {
    ghost eq = { pointwise nat_eq };

    ghost laws = { Cmp.partial_equiv_from_equiv nat_list_eq_equiv };

    fn eq(&self, other: &FilePath) -> bool {
        self.as_str() == other.as_str()
    }
}

impl Eq for FilePath {
    ghost laws = { nat_list_eq_equiv };
}

impl PartialOrd for FilePath {
    ghost partial_cmp = { λ x y. Some (slice_cmp nat_cmp x y) };

    ghost laws = { Cmp.partial_order_from_agreeing_total (slice_cmp nat_cmp) nat_list_cmp_total
        (λ x y. refl) (Prim.search (comparing, rules)) };

    fn partial_cmp(&self, other: &FilePath) -> Option<Ordering> {
        Some(self.cmp(other))
    }
}

impl Ord for FilePath {
    ghost cmp = { slice_cmp nat_cmp };

    ghost total = { nat_list_cmp_total };

    ghost matches_partial_cmp = { λ x y. refl };

    ghost matches_eq = { Prim.search (comparing, rules) };

    fn cmp(&self, other: &FilePath) -> Ordering {
        self.as_str().cmp(other.as_str())
    }
}
