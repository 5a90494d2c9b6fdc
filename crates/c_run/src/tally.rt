//! What a counter is at.

ghost use Rattle.std.specs.Prelude.{◌≡◌, ◌<◌, ◌^◌, pos};
ghost use Rattle.c_tree.specs.Meaning.{Int64};
ghost use Rattle.c_run.specs.View.{word_view};

use crate::word::Word;
use std::marker::Model;

/// What a counter is at, below 2^63.
#[derive(Clone, Copy, Drop)]
pub struct Tally {
    number: u64,
}

impl Model for Tally {
    ghost use Rattle.std.specs.Prelude.{ℕ, ◌<◌, ◌^◌};

    ghost Value = { ℕ };

    ghost view = { λ t. t.number };

    ghost invariant = { λ t. t.number < 2 ^ 63 };

    ghost inverse = { λ n. record { number = n } };
}

impl Tally {
    /// A counter at this number.
    pub fn of(number: u64) -> Tally
        requires { number < 2 ^ 63 }
        ensures { result ≡ number }
    {
        Tally { number }
    }

    /// Its number as an `int64_t`.
    pub fn word(self) -> Word
        ensures { word_view result ≡ Int64 (pos self) }
    {
        Word::Signed(self.number as i64)
    }
}
