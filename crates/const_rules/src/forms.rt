//! The one form of a number, and the constant that a number is.

ghost use Rattle.std.specs.Prelude.{◌≡◌, Some, None};
ghost use Rattle.num_type.specs.Constants.{Exact, IsConstant, IsReduced, IsSame};
ghost use Rattle.const_rules.specs.OneForm.{constant_of, reduced};

/// Each number has one form, in which its constant is kept; there is none exactly where it is no constant. The same numbers have the same
/// answer, and a constant in the one form is its own.
pub fn each_number_has_one_form()
    ensures form { (x : Exact) → IsReduced (reduced x) × IsSame (reduced x) x }
    ensures some { (x n : Exact) → constant_of x ≡ Some n → IsReduced n × IsSame n x × IsConstant x }
    ensures none { (x : Exact) → constant_of x ≡ None → IsConstant x → ⊥ }
    ensures same { (x y : Exact) → IsSame x y → constant_of x ≡ constant_of y }
    ensures own { (x : Exact) → IsReduced x → IsConstant x → constant_of x ≡ Some x }
{}
