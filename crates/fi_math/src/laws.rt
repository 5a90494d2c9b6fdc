//! Laws of the definitions that the calls cite.

ghost use Rattle.std.specs.Prelude.{◌≡◌, ◌↔◌, ◌≤◌, ◌^◌, ◌||◌, ◌+ℤ◌, ◌-ℤ◌, ℕ, ℤ, pos, true};
ghost use Rattle.std.specs.Int.{int_max};
ghost use Rattle.num_type.specs.Types.{NumericType};
ghost use Rattle.fi_math.specs.declared.fimath.Fimath.{Fimath};
ghost use Rattle.fi_math.specs.Full.{full_sum, whole_bits};
ghost use Rattle.fi_math.specs.Logs.{log2_up};
ghost use Rattle.fi_math.specs.Same.{same_fimath};

/// Two fimaths are the same exactly where all nine properties are equal.
pub fn same_is_equal()
    ensures { (m n : Fimath) → (same_fimath m n ≡ true) ↔ (m ≡ n) }
{}

/// The logarithm of `n` is the least `k` with `n ≤ 2^k`.
pub fn logarithm_is_least()
    ensures holds { (n : ℕ) → n ≤ 2 ^ log2_up n }
    ensures least { (n k : ℕ) → n ≤ 2 ^ k → log2_up n ≤ k }
{}

/// The word length of a full sum is the most bits before the point of an operand, and the fraction length, and one more.
pub fn sum_holds_both()
    ensures { (a b : NumericType) → let s = a.signed || b.signed in pos ((full_sum a b).word) ≡ int_max (whole_bits s a) (whole_bits s b) +ℤ int_max a.fraction b.fraction +ℤ pos 1 }
{}
