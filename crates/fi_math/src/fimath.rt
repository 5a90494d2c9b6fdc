//! The properties of fixed-point arithmetic.

ghost use Rattle.std.specs.Prelude.{◌≡◌};

use num_type::{Overflow, Rounding};

/// How the type of a product or a sum is made from its full type (ProductMode, SumMode).
#[derive(Clone, Copy, Debug, PartialEq, Eq)]
pub enum Mode {
    /// The full type.
    FullPrecision,
    /// The stated word length and the full fraction length.
    KeepLSB,
    /// The stated word length and the greatest fraction length that drops no bit before the point.
    KeepMSB,
    /// The stated word length and fraction length.
    SpecifyPrecision,
}

/// The nine properties of a fimath.
#[derive(Clone, Copy, Debug, PartialEq, Eq)]
pub struct Fimath {
    /// RoundingMethod.
    pub rounding: Rounding,
    /// OverflowAction.
    pub overflow: Overflow,
    /// ProductMode.
    pub product_mode: Mode,
    /// ProductWordLength, in bits.
    pub product_word: u32,
    /// ProductFractionLength, in bits.
    pub product_fraction: i32,
    /// SumMode.
    pub sum_mode: Mode,
    /// SumWordLength, in bits.
    pub sum_word: u32,
    /// SumFractionLength, in bits.
    pub sum_fraction: i32,
    /// CastBeforeSum.
    pub cast_before_sum: bool,
}

impl Fimath {
    ghost use Rattle.fi_math.specs.Same.{same_fimath};
    ghost use Rattle.fi_math.specs.Govern.{usual};

    /// The defaults of the nine properties.
    pub fn usual() -> Fimath
        ensures { result ≡ usual }
    {
        Fimath {
            rounding: Rounding::Nearest,
            overflow: Overflow::Saturate,
            product_mode: Mode::FullPrecision,
            product_word: 32,
            product_fraction: 30,
            sum_mode: Mode::FullPrecision,
            sum_word: 32,
            sum_fraction: 30,
            cast_before_sum: true,
        }
    }

    /// Whether all nine properties are equal.
    pub fn same(self, other: Fimath) -> bool
        ensures { result ≡ same_fimath self other }
    {
        self == other
    }
}
