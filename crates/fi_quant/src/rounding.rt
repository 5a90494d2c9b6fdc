//! Rounding of `z / 2^k` to a whole number.

ghost use Rattle.std.specs.Prelude.{◌≡◌, ◌+◌, ◌*◌, ◌^◌, ◌<◌, ◌==◌, ◌%◌, ℕ};
ghost use Rattle.fi_quant.specs.Round.{IsRounded};
ghost use Rattle.fi_quant.specs.Numbers.{rounded};
ghost use Rattle.fi_quant.specs.Split.{IsSplit, leaves_of, past_half_of, rounds_up_of};

use num_type::{Int, Rounding};

/// What a division by a power of two leaves over, against half of the divisor.
#[derive(Clone, Copy)]
enum Rest {
    Nothing,
    BelowHalf,
    Half,
    AboveHalf,
}

/// The quotient of a size by a power of two, rounded down, and what is left over.
#[derive(Clone, Copy)]
struct Split {
    whole: u128,
    rest: Rest,
}

/// The whole number that the rounding method gives for the exact `z / 2^k` (RoundingMethod of a fimath). Total: any `z`, any `k`.
pub fn round(method: Rounding, z: Int, k: u32) -> Int
    ensures meets { IsRounded method z k result }
    ensures value { result ≡ rounded method z k }
{
    round_size(method, z, k)
}

/// The same, from the size of `z`.
fn round_size(method: Rounding, z: Int, k: u32) -> Int
    ensures { IsRounded method z k result }
{
    let split = split_at(z.magnitude(), k);
    let size = if rounds_up(method, z.is_negative(), split.whole % 2 == 1, split.rest) {
        split.whole + 1
    } else {
        split.whole
    };
    Int::of(z.is_negative(), size)
}

/// Whether the method moves a size away from 0.
fn rounds_up(method: Rounding, neg: bool, odd: bool, rest: Rest) -> bool
    ensures { result ≡ rounds_up_of method neg odd rest }
{
    match method {
        Rounding::Ceiling => leaves(rest) & !neg,
        Rounding::Floor => leaves(rest) & neg,
        Rounding::Zero => false,
        Rounding::Nearest => past_half(rest, !neg),
        Rounding::Round => past_half(rest, true),
        Rounding::Convergent => past_half(rest, odd),
    }
}

/// Whether anything is left over.
fn leaves(rest: Rest) -> bool
    ensures { result ≡ leaves_of rest }
{
    match rest {
        Rest::Nothing => false,
        Rest::BelowHalf | Rest::Half | Rest::AboveHalf => true,
    }
}

/// Whether more than half is left over, or just half where a tie moves.
fn past_half(rest: Rest, tie: bool) -> bool
    ensures { result ≡ past_half_of rest tie }
{
    match rest {
        Rest::Nothing | Rest::BelowHalf => false,
        Rest::Half => tie,
        Rest::AboveHalf => true,
    }
}

/// The quotient of a size by `2^k`, and what is left over.
fn split_at(size: u128, k: u32) -> Split
    ensures { IsSplit size k result.whole result.rest }
{
    if k > 128 {
        return Split {
            whole: 0,
            rest: if size == 0 {
                Rest::Nothing
            } else {
                Rest::BelowHalf
            },
        };
    }
    if k == 0 {
        return Split {
            whole: size,
            rest: Rest::Nothing,
        };
    }
    let whole = (size >> (k - 1)) >> 1;
    let left = size & (u128::MAX >> (128 - k));
    let half = 1u128 << (k - 1);
    let rest = if left == 0 {
        Rest::Nothing
    } else if left < half {
        Rest::BelowHalf
    } else if left == half {
        Rest::Half
    } else {
        Rest::AboveHalf
    };
    Split { whole, rest }
}
