//! Laws: each definition of rounding, overflow and quantising has exactly one number, the one that its function gives.

ghost use Rattle.std.specs.Prelude.{◌≡◌, ◌≤◌, ℕ, ℤ};
ghost use Rattle.num_type.specs.Types.{NumericType};
ghost use Rattle.num_type.specs.declared.methods.Rounding.{Rounding};
ghost use Rattle.num_type.specs.declared.methods.Overflow.{Overflow};
ghost use Rattle.fi_quant.specs.Round.{IsRounded};
ghost use Rattle.fi_quant.specs.Fit.{IsFit, IsQuantised};
ghost use Rattle.fi_quant.specs.Numbers.{rounded, fitted, quantised};

/// Each method rounds each `z / 2^k` to exactly one whole number.
pub fn each_rounds_once()
    ensures some { (m : Rounding) (z : ℤ) (k : ℕ) → IsRounded m z k (rounded m z k) }
    ensures one { (m : Rounding) (z : ℤ) (k : ℕ) (q r : ℤ) → IsRounded m z k q → IsRounded m z k r → q ≡ r }
{}

/// Each action brings each whole number to exactly one number of a type's range.
pub fn each_fits_once()
    ensures some { (a : Overflow) (t : NumericType) (z : ℤ) → 1 ≤ t.word → IsFit a t z (fitted a t z) }
    ensures one { (a : Overflow) (t : NumericType) (z q r : ℤ) → 1 ≤ t.word → IsFit a t z q → IsFit a t z r → q ≡ r }
{}

/// Each exact value becomes exactly one stored integer of a type.
pub fn each_quantises_once()
    ensures some { (m : Rounding) (a : Overflow) (t : NumericType) (z f : ℤ) → 1 ≤ t.word → IsQuantised m a t z f (quantised m a t z f) }
    ensures one { (m : Rounding) (a : Overflow) (t : NumericType) (z f q r : ℤ) → 1 ≤ t.word → IsQuantised m a t z f q → IsQuantised m a t z f r → q ≡ r }
{}
