//! Constants that code keeps, and what its contracts say of them, are the functions' answers.

ghost use Rattle.std.specs.Prelude.{◌≡◌, ◌≤◌, ◌↔◌, ℕ, ℤ, Bool, List, map, Option, Some, None, option_map, IsSome, IfSome, IfNone};
ghost use Rattle.num_type.specs.Constants.{Exact, IsConstant, IsReduced, IsSame};
ghost use Rattle.num_type.specs.Precision.{IsBestFraction};
ghost use Rattle.num_type.specs.View.{exact_of};
ghost use Rattle.num_type.specs.declared.dyadic.Dyadic.{Dyadic};
ghost use Rattle.const_eval.specs.Complex.{AreConstant, AreSame, Complex, HasConstantSteps, complex_of, minus, plus, times};
ghost use Rattle.const_eval.specs.declared.complex.Complex as code_complex;
ghost use Rattle.const_eval.specs.Powers.{IsPowerOf, NoPowerOf};
ghost use Rattle.const_eval.specs.Literals.{IsLiteral, NoLiteral};
ghost use Rattle.const_rules.specs.ComplexFolds.{complex_added, complex_multiplied, complex_subtracted};
ghost use Rattle.const_rules.specs.OneForm.{constant_of};
ghost use Rattle.const_rules.specs.Folds.{power};
ghost use Rattle.const_rules.specs.LiteralValues.{literal_of};
ghost use Rattle.const_rules.specs.BestFraction.{best_fraction_of};

/// The constants that code keeps are those in the one form.
pub fn constants_are_kept()
    ensures form { (d : Dyadic) → IsReduced (exact_of d) }
    ensures limits { (d : Dyadic) → IsConstant (exact_of d) }
    ensures all { (x : Exact) → IsReduced x → IsConstant x → (d : Dyadic) × (exact_of d ≡ x) }
{}

/// A result that is there exactly where a number is a constant, and is the same number, is the constant of that number.
pub fn kept_constants_are_answers()
    ensures { (x : Exact) (r : Option Dyadic) → (IsSome r ↔ IsConstant x) → IfSome r (λ d. IsSame (exact_of d) x) → option_map exact_of r ≡ constant_of x }
{}

/// A result that is a power where it is there, and is missing only where no constant is that power, is the power.
pub fn kept_powers_are_answers()
    ensures { (x : Exact) (exponent : ℤ) (r : Option Dyadic) → IfSome r (λ d. IsPowerOf x exponent (exact_of d)) → IfNone r (NoPowerOf x exponent) → option_map exact_of r ≡ power x exponent }
{}

/// A constant that a text stands for is the text's, and a text that stands for no constant has none.
pub fn kept_literals_are_answers()
    ensures some { (text : List ℕ) (d : Dyadic) → IsLiteral text (exact_of d) → literal_of text ≡ Some (exact_of d) }
    ensures none { (text : List ℕ) → NoLiteral text → literal_of text ≡ None }
{}

/// Constants that are kept have one best fraction length in a type of at least one bit.
pub fn kept_constants_have_one_best_fraction()
    ensures { (signed : Bool) (word : ℕ) (values : List Dyadic) (best : ℤ) → 1 ≤ word → IsBestFraction signed word values best → best ≡ best_fraction_of signed word (map exact_of values) }
{}

/// The same of complex constants: a result that is there exactly within the limits, and is the number, is the answer.
pub fn kept_complex_constants_are_answers()
    ensures sum { (x y : Complex) (r : Option code_complex.Complex) → (IsSome r ↔ AreConstant (plus x y)) → IfSome r (λ c. AreSame (complex_of c) (plus x y)) → option_map complex_of r ≡ complex_added x y }
    ensures difference { (x y : Complex) (r : Option code_complex.Complex) → (IsSome r ↔ AreConstant (minus x y)) → IfSome r (λ c. AreSame (complex_of c) (minus x y)) → option_map complex_of r ≡ complex_subtracted x y }
    ensures product { (x y : Complex) (r : Option code_complex.Complex) → (IsSome r ↔ HasConstantSteps x y) → IfSome r (λ c. AreSame (complex_of c) (times x y)) → option_map complex_of r ≡ complex_multiplied x y }
{}
