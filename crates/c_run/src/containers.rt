//! The ranges of containers.

ghost use Rattle.std.specs.Prelude.{◌≡◌, ◌-◌, ◌^◌, pos, IfOk, true, false};
ghost use Rattle.num_type.specs.Containers.{bits_of, is_signed_container};
ghost use Rattle.c_tree.specs.Meaning;
ghost use Rattle.c_tree.specs.Meaning.{whole_of};
ghost use Rattle.c_run.specs.View.{word_view, told};
ghost use Rattle.c_run.specs.Fit.{IsFit};

use crate::word::{Word, bits_of_word};
use num_type::{Container, Int};

// Whether a container is signed.
fn is_signed(c: Container) -> bool
    ensures { result ≡ is_signed_container c }
{
    match c {
        Container::I8 | Container::I16 | Container::I32 | Container::I64 => true,
        Container::U8 | Container::U16 | Container::U32 | Container::U64 => false,
    }
}

// 2 to the number of bits of a container.
fn modulus(c: Container) -> u128
    ensures { result ≡ 2 ^ bits_of c }
{
    match c {
        Container::I8 | Container::U8 => 1 << 8,
        Container::I16 | Container::U16 => 1 << 16,
        Container::I32 | Container::U32 => 1 << 32,
        Container::I64 | Container::U64 => 1 << 64,
    }
}

// Half of that.
fn half(c: Container) -> i128
    ensures { result ≡ pos (2 ^ (bits_of c - 1)) }
{
    match c {
        Container::I8 | Container::U8 => 1 << 7,
        Container::I16 | Container::U16 => 1 << 15,
        Container::I32 | Container::U32 => 1 << 31,
        Container::I64 | Container::U64 => 1 << 63,
    }
}

/// An element as a word of its signedness.
pub fn loaded(c: Container, element: Int) -> Word
    requires { IsFit c element }
    ensures { word_view result ≡ Meaning.loaded c element }
{
    if is_signed(c) {
        match element.to_i64() {
            Some(z) => Word::Signed(z),
            None => Word::Signed(0),
        }
    } else {
        Word::Unsigned(element.magnitude() as u64)
    }
}

/// The cast of a store, at its opening parenthesis (ISO/IEC 9899:1999, 6.3.1.3). Undefined out of the range of a signed container.
#[tactic(auto, unfolding(c_tree::specs::Meaning::kept, c_tree::specs::Outcome::choose))]
pub fn kept(token: u64, c: Container, w: Word) -> Result<Int, u64>
    ensures value { told result ≡ Meaning.kept token c (whole_of (word_view w)) }
    ensures fit { IfOk result (λ z. IsFit c z) }
{
    if is_signed(c) {
        kept_signed(token, c, w)
    } else {
        Ok(wrapped(c, w))
    }
}

// The same of a signed container.
#[tactic(auto, unfolding(c_tree::specs::Meaning::kept, c_tree::specs::Outcome::choose))]
fn kept_signed(token: u64, c: Container, w: Word) -> Result<Int, u64>
    requires { is_signed_container c ≡ true }
    ensures value { told result ≡ Meaning.kept token c (whole_of (word_view w)) }
    ensures fit { IfOk result (λ z. IsFit c z) }
{
    let z = whole(w);
    let bound = half(c);
    if -bound <= z && z < bound {
        Ok(Int::from_i128(z))
    } else {
        Err(token)
    }
}

// A word as a whole number.
fn whole(w: Word) -> i128
    ensures { result ≡ whole_of (word_view w) }
{
    match w {
        Word::Signed(z) => z as i128,
        Word::Unsigned(n) => n as i128,
    }
}

// A word modulo 2 to the number of bits of a container without a sign (6.2.5).
#[tactic(auto, using(crate::proofs::Words::wrapped_again))]
fn wrapped(c: Container, w: Word) -> Int
    requires { is_signed_container c ≡ false }
    ensures value { result ≡ pos (Meaning.wrapped (bits_of c) (whole_of (word_view w))) }
    ensures fit { IsFit c result }
{
    let bits = bits_of_word(w);
    Int::of(false, bits as u128 % modulus(c))
}
