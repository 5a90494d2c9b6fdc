//! The constants that texts of numbers stand for.

ghost use Rattle.std.specs.Prelude.{ℕ, ℤ, List};
ghost use Rattle.const_eval.specs.Literals.{IsDecimalValue, IsLiteral};
ghost use Rattle.const_rules.specs.OneForm.{IsConstantWith};
ghost use Rattle.const_rules.specs.LiteralValues.{decimal_of, literal_of};

/// The constant `n * 10^power` of at most 17 digits without zeros at both ends, and a power of 10 from -22 to 22 behind them.
pub fn decimals_are_constants()
    ensures { (n : ℕ) (power : ℤ) → IsConstantWith (IsDecimalValue n power) (decimal_of n power) }
{}

/// The constant that a text stands for, and none only where it stands for none.
pub fn literals_are_constants()
    ensures { (text : List ℕ) → IsConstantWith (IsLiteral text) (literal_of text) }
{}
