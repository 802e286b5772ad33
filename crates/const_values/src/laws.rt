//! What the words for whole numbers mean.
ghost use Rattle.std.specs.Prelude.{◌≡◌, ◌^◌, ◌+ℤ◌, ◌*ℤ◌, ℤ, int_rem, FitsSigned};
ghost use Rattle.std.specs.Int.{Width};
ghost use mir.Val.{bits};
ghost use Rattle.const_values.specs.Numbers.{residue, wrapped, quotient};

/// What wraps is the number of the type that is congruent (JLS 4.2.2).
pub fn wrapped_numbers_are_congruent()
    ensures in_range { (w : Width) (z : ℤ) → FitsSigned w (wrapped w z) }
    ensures congruent { (w : Width) (z : ℤ)
        → residue (wrapped w z) (2 ^ bits w) ≡ residue z (2 ^ bits w) }
{}

/// A quotient and its remainder give the dividend back (JLS 15.17.3).
pub fn quotients_have_their_remainder()
    ensures { (a b : ℤ) → (quotient a b *ℤ b +ℤ int_rem a b) ≡ a }
{}
