//! A law of constants.

ghost use Rattle.std.specs.Prelude.{◌≡◌};
ghost use Rattle.num_type.specs.Constants.{Exact, IsReduced, IsSame};

/// Two numbers in the one form that are the same have the same significand and exponent.
pub fn a_constant_has_one_form()
    ensures { (x y : Exact) → IsReduced x → IsReduced y → IsSame x y → x ≡ y }
{}
