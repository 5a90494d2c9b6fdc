//! Operators on complex constants: each answers the number that is meant, its parts constants in the one form, and none only where a part, or
//! a product on the way to it, is no constant.

ghost use Rattle.const_eval.specs.Complex.{AreConstant, Complex, HasConstantSteps, minus, plus, times};
ghost use Rattle.const_rules.specs.ComplexFolds.{AreReduced, IsComplexAnswer, complex_added, complex_multiplied, complex_negated, complex_subtracted};

/// Sums.
pub fn complex_sums_are_constants()
    ensures { (x y : Complex) → IsComplexAnswer (plus x y) (AreConstant (plus x y)) (complex_added x y) }
{}

/// Differences.
pub fn complex_differences_are_constants()
    ensures { (x y : Complex) → IsComplexAnswer (minus x y) (AreConstant (minus x y)) (complex_subtracted x y) }
{}

/// Products: four products, a difference and a sum.
pub fn complex_products_are_constants()
    ensures { (x y : Complex) → IsComplexAnswer (times x y) (HasConstantSteps x y) (complex_multiplied x y) }
{}

/// The number with both parts of the other sign is a constant in the one form where the number is one.
pub fn complex_negatives_are_constants()
    ensures form { (x : Complex) → AreReduced x → AreReduced (complex_negated x) }
    ensures limits { (x : Complex) → AreConstant x → AreConstant (complex_negated x) }
{}
