//! Extreme types and numbers, and parts beside what they are to give.

ghost use Rattle.std.specs.Prelude.{◌≡◌};
ghost use Rattle.num_type.specs.View.{type_of};
ghost use Rattle.lower_scalar.specs.Part.{part_view};
ghost use Rattle.part_run.specs.PartProgram.{Computes};

use c_tree::CPart;
use fi_ops::Elem;
use fi_quant::fit;
use num_type::{Int, Memory, NumType, Overflow};
use part_run::run_part;
use std::alloc::Global;

/// The signedness, word length and fraction length of a type.
pub(crate) type Parts = (bool, u32, i32);

/// A whole number: whether it is below 0, and its size.
pub(crate) type Number = (bool, u128);

/// Types at the ends of the limits, and between.
pub(crate) const TYPES: [Parts; 12] = [
    (true, 64, -256),
    (true, 64, 256),
    (true, 64, 0),
    (true, 63, 64),
    (true, 31, 3),
    (true, 1, 0),
    (true, 8, 4),
    (false, 64, 0),
    (false, 64, -64),
    (false, 32, 1),
    (false, 1, 0),
    (false, 9, 5),
];

/// Whole numbers at ends of ranges and at ties. A type holds the nearest of its own.
pub(crate) const NUMBERS: [Number; 14] = [
    (true, 9223372036854775808),
    (true, 9223372036854775807),
    (true, 4611686018427387904),
    (true, 24),
    (true, 12),
    (true, 1),
    (false, 0),
    (false, 1),
    (false, 12),
    (false, 4611686018427387904),
    (false, 9223372036854775807),
    (false, 9223372036854775808),
    (false, 9223372036854775809),
    (false, 18446744073709551615),
];

/// Some of them, for pairs.
pub(crate) const OTHERS: [Number; 4] = [
    (true, 9223372036854775808),
    (true, 24),
    (false, 12),
    (false, 18446744073709551615),
];

pub(crate) const ACTIONS: [Overflow; 2] = [Overflow::Saturate, Overflow::Wrap];

/// The type with these parts.
pub(crate) fn made(parts: Parts) -> Option<NumType> {
    NumType::make(parts.0, parts.1, parts.2)
}

/// The element of a type that is nearest to a whole number.
pub(crate) fn element(num: NumType, number: Number) -> Elem
    ensures { result.num ≡ num }
{
    Elem {
        num,
        z: fit(Overflow::Saturate, num, Int::of(number.0, number.1)),
    }
}

/// Whether a part gives the number of `want` where variables 0 and 1 hold those of `a` and `b`.
pub(crate) fn gives(
    alloc: Global,
    part: CPart,
    a: Elem,
    b: Elem,
    want: Elem,
) -> Result<bool, Memory>
    requires { Computes (type_of a.num) (type_of b.num) want.num.signed (part_view part) }
{
    match run_part(alloc, part, a, b, want.num)? {
        Some(got) => Ok(got.at_most(want.z) && want.z.at_most(got)),
        None => Ok(false),
    }
}
