//! Laws of accumulation.

ghost use Rattle.std.specs.Prelude.{◌≡◌, ◌≤◌, ℕ, ℤ, pos, List, length};
ghost use Rattle.std.specs.List.{AllByRecursion};
ghost use Rattle.num_type.specs.Types.{NumericType, IsInRange};
ghost use Rattle.fi_math.specs.declared.fimath.Fimath.{Fimath};
ghost use Rattle.fi_math.specs.Full.{full_sum_of};
ghost use Rattle.fi_math.specs.Made.{Is};
ghost use Rattle.fi_math.specs.Rules.{sum_made, stepped};
ghost use Rattle.fi_complex.specs.Steps.{accumulated, total};

/// Each sum type of some number of addends is one in which a step has a type: so the condition of a step is met from the first addend
/// to the last one.
pub fn sum_types_have_steps()
    ensures { (m : Fimath) (a t : NumericType) (n : ℕ) → sum_made m a n ≡ Is t → stepped m a t ≡ Is t }
{}

/// In the full sum type of `n` addends an accumulation of up to `n` is exact, and in range, under each fimath: with and without
/// CastBeforeSum.
pub fn full_accumulations_are_exact()
    ensures value { (m : Fimath) (u : NumericType) (n : ℕ) (zs : List ℤ) → 1 ≤ u.word → AllByRecursion (IsInRange u) zs → length zs ≤ n → accumulated m (full_sum_of n u) u (pos 0) zs ≡ total zs }
    ensures inside { (u : NumericType) (n : ℕ) (zs : List ℤ) → 1 ≤ u.word → AllByRecursion (IsInRange u) zs → length zs ≤ n → IsInRange (full_sum_of n u) (total zs) }
{}
