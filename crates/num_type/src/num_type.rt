//! Fixed-point types.

ghost use Rattle.std.specs.Prelude.{◌≡◌, ◌≤◌, ◌≤ℤ◌, pos, negsuc};

use crate::container::Container;
use crate::int::Int;

/// The greatest word length of a type, in bits.
pub const WORD_MAX: u32 = 64;

/// The least fraction length of a type, in bits.
pub const FRACTION_MIN: i32 = -256;

/// The greatest fraction length of a type, in bits.
pub const FRACTION_MAX: i32 = 256;

/// A fixed-point type (numerictype): a signedness, a word length and a fraction length, within the limits. A stored integer `z`
/// stands for `z * 2^(-fraction)`.
#[derive(Clone, Copy, Debug, PartialEq, Eq)]
pub struct NumType {
    signed: bool,
    word: u32,
    fraction: i32,
    ghost one_bit: { 1 ≤ word },
    ghost bits: { word ≤ 64 },
    ghost least: { negsuc 255 ≤ℤ fraction },
    ghost most: { fraction ≤ℤ pos 256 },
}

impl NumType {
    ghost use Rattle.std.specs.Prelude.{◌≡◌, ◌≤◌, ◌≤ℤ◌, ◌↔◌, pos, negsuc, IfSome, IsSome};
    ghost use Rattle.num_type.specs.Types.{low, high, IsWithin};
    ghost use Rattle.num_type.specs.View.{type_of};
    ghost use Rattle.num_type.specs.Containers.{bits_of, is_signed_container};
    ghost use Rattle.num_type.specs.declared.container.Container.{Container};

    /// The type with these parts. None exactly where the word length isn't from 1 to 64 bits or the fraction length isn't from
    /// -256 to 256 bits.
    pub fn make(signed: bool, word: u32, fraction: i32) -> Option<NumType>
        ensures limits { IsSome result ↔ IsWithin (record { signed = signed; word = word; fraction = fraction }) }
        ensures parts { IfSome result (λ t. type_of t ≡ record { signed = signed; word = word; fraction = fraction }) }
    {
        if word >= 1 && word <= WORD_MAX && fraction >= FRACTION_MIN && fraction <= FRACTION_MAX {
            Some(NumType {
                signed,
                word,
                fraction,
            })
        } else {
            None
        }
    }

    /// Whether the type holds negative numbers.
    pub fn signed(self) -> bool
        ensures { result ≡ self.signed }
    {
        self.signed
    }

    /// The word length in bits, from 1 to 64.
    pub fn word(self) -> u32
        ensures value { result ≡ self.word }
        ensures least { 1 ≤ result }
        ensures most { result ≤ 64 }
    {
        self.word
    }

    /// The fraction length in bits, from -256 to 256.
    pub fn fraction(self) -> i32
        ensures value { result ≡ self.fraction }
        ensures least { negsuc 255 ≤ℤ result }
        ensures most { result ≤ℤ pos 256 }
    {
        self.fraction
    }

    /// The least stored integer.
    pub fn low(self) -> Int
        ensures { result ≡ low (type_of self) }
    {
        if self.signed {
            Int::of(true, 1 << (self.word - 1))
        } else {
            Int::of(false, 0)
        }
    }

    /// The greatest stored integer.
    pub fn high(self) -> Int
        ensures { result ≡ high (type_of self) }
    {
        if self.signed {
            Int::of(false, (1 << (self.word - 1)) - 1)
        } else {
            Int::of(false, u128::MAX >> (128 - self.word))
        }
    }

    /// The narrowest container of the type's signedness that holds its range.
    pub fn container(self) -> Container
        ensures sign { is_signed_container result ≡ self.signed }
        ensures holds { self.word ≤ bits_of result }
        ensures narrowest { (c : Container) → self.word ≤ bits_of c → bits_of result ≤ bits_of c }
    {
        if self.signed {
            match self.word {
                0..=8 => Container::I8,
                9..=16 => Container::I16,
                17..=32 => Container::I32,
                _ => Container::I64,
            }
        } else {
            match self.word {
                0..=8 => Container::U8,
                9..=16 => Container::U16,
                17..=32 => Container::U32,
                _ => Container::U64,
            }
        }
    }
}
