//! Operators on real constants: each answers the constant that its relation says, in the one form, and none only where it says none; and the
//! same of the same numbers.

ghost use Rattle.std.specs.Prelude.{◌≡◌, ℤ, pos, Some};
ghost use Rattle.num_type.specs.Constants.{Exact, IsConstant, IsReduced, IsSame, difference, product_of, sum_of};
ghost use Rattle.num_type.specs.Precision.{whole};
ghost use Rattle.const_eval.specs.Powers.{IsPowerOf};
ghost use Rattle.const_rules.specs.OneForm.{IsConstantWith};
ghost use Rattle.const_rules.specs.Folds.{added, multiplied, negated, power, subtracted};

/// Sums.
pub fn sums_are_constants()
    ensures value { (x y : Exact) → IsConstantWith (λ n. IsSame n (sum_of x y)) (added x y) }
    ensures same { (x u y v : Exact) → IsSame x u → IsSame y v → added x y ≡ added u v }
{}

/// Differences.
pub fn differences_are_constants()
    ensures value { (x y : Exact) → IsConstantWith (λ n. IsSame n (difference x y)) (subtracted x y) }
    ensures same { (x u y v : Exact) → IsSame x u → IsSame y v → subtracted x y ≡ subtracted u v }
{}

/// Products.
pub fn products_are_constants()
    ensures value { (x y : Exact) → IsConstantWith (λ n. IsSame n (product_of x y)) (multiplied x y) }
    ensures same { (x u y v : Exact) → IsSame x u → IsSame y v → multiplied x y ≡ multiplied u v }
{}

/// The number with the other sign is a constant in the one form where the number is one.
pub fn negatives_are_constants()
    ensures form { (x : Exact) → IsReduced x → IsReduced (negated x) }
    ensures limits { (x : Exact) → IsConstant x → IsConstant (negated x) }
    ensures same { (x y : Exact) → IsSame x y → IsSame (negated x) (negated y) }
{}

/// Whole powers; to the power 0 each number is 1.
pub fn powers_are_constants()
    ensures value { (x : Exact) (exponent : ℤ) → IsConstantWith (IsPowerOf x exponent) (power x exponent) }
    ensures same { (x y : Exact) (exponent : ℤ) → IsSame x y → power x exponent ≡ power y exponent }
    ensures zero { (x : Exact) → power x (pos 0) ≡ Some (whole (pos 1)) }
{}
