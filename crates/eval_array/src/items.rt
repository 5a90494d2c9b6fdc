//! Items of ranges.

ghost use Rattle.std.specs.Prelude.{ℕ, ◌<◌, ◌≤◌, ◌^◌, ◌+ℤ◌, ◌*ℤ◌, pos};
ghost use Rattle.shape_rules.specs.Places.{IsBound};

use eval_value::whole_number;
use num_type::Dyadic;

/// The items of a range of whole numbers: `first + step * k` for each k below the count, all within 2^31 - 1 of 0.
#[derive(Clone, Copy)]
pub struct Items {
    /// The first item.
    pub first: i64,
    /// What each item is above the one before.
    pub step: i64,
    /// How many items there are.
    pub count: u64,
    ghost first_bound: { IsBound first },
    ghost few: { count ≤ 2 ^ 32 },
    ghost bounds: { (k : ℕ) → k < count → IsBound (first +ℤ step *ℤ pos k) },
}

impl Items {
    ghost use Rattle.std.specs.Prelude.{◌≡◌, ◌<◌, ◌+ℤ◌, ◌*ℤ◌, pos};
    ghost use Rattle.num_type.specs.View.{exact_of};
    ghost use Rattle.fi_values.specs.Numbers.{constant};

    /// Item k, counted from 0, as a constant.
    pub fn item(&self, k: u64) -> Dyadic
        requires { k < self.now.count }
        ensures { exact_of result ≡ constant (self.now.first +ℤ self.now.step *ℤ pos k) }
    {
        whole_number(self.number(k))
    }

    // Item k as a number.
    fn number(&self, k: u64) -> i64
        requires { k < self.now.count }
        ensures { result ≡ self.now.first +ℤ self.now.step *ℤ pos k }
    {
        self.first + self.step * k as i64
    }
}
