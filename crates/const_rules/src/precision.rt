//! Best fraction lengths of numbers, and their stored integers.

ghost use Rattle.std.specs.Prelude.{◌≡◌, ◌≤◌, ◌↔◌, ◌≤ℤ◌, ℕ, ℤ, Bool, List, map, IsTrue, Some};
ghost use Rattle.num_type.specs.Constants.{Exact, IsSame};
ghost use Rattle.num_type.specs.Precision.{IsBestFraction, IsHeld, counted, scaled, whole};
ghost use Rattle.num_type.specs.Types.{IsInRange, NumericType};
ghost use Rattle.num_type.specs.View.{exact_of};
ghost use Rattle.num_type.specs.declared.dyadic.Dyadic.{Dyadic};
ghost use Rattle.const_rules.specs.BestFraction.{IsBestFractionOf, best_fraction_of};
ghost use Rattle.const_rules.specs.Stored.{is_exact_at, stored_at, stored_in, whole_within};

/// The best fraction length of numbers in a type of at least one bit, and of constants that are kept.
pub fn numbers_have_a_best_fraction()
    ensures numbers { (signed : Bool) (word : ℕ) (values : List Exact) → 1 ≤ word → IsBestFractionOf signed word values (best_fraction_of signed word values) }
    ensures kept { (signed : Bool) (word : ℕ) (values : List Dyadic) → 1 ≤ word → IsBestFraction signed word values (best_fraction_of signed word (map exact_of values)) }
{}

/// A number times `2^fraction` is a whole number exactly where the test says so, and then it is the stored integer.
pub fn stored_integers_are_exact()
    ensures { (x : Exact) (fraction z : ℤ) → IsSame (whole z) (scaled fraction x) ↔ (IsTrue (is_exact_at x fraction) × (z ≡ stored_at x fraction)) }
{}

/// A type has a stored integer for a number exactly where one in its range is the number. A number that the type holds, and that counts as
/// itself there, has one where it is exact.
pub fn types_store_numbers()
    ensures held { (t : NumericType) (x : Exact) → IsHeld t.signed t.word t.fraction x → counted t.signed x.significand ≡ x.significand → IsTrue (is_exact_at x t.fraction) → IsInRange t (stored_at x t.fraction) }
    ensures stored { (t : NumericType) (x : Exact) (z : ℤ) → (stored_in t x ≡ Some z) ↔ (IsSame (whole z) (scaled t.fraction x) × IsInRange t z) }
{}

/// A number is read as a whole number between bounds exactly where it is one.
pub fn whole_numbers_are_read()
    ensures { (least most : ℤ) (x : Exact) (z : ℤ) → (whole_within least most x ≡ Some z) ↔ (IsSame (whole z) x × (least ≤ℤ z) × (z ≤ℤ most)) }
{}
