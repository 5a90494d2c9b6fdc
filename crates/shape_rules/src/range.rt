//! Items of ranges.

ghost use Rattle.std.specs.Prelude.{◌≡◌, ◌<◌, ◌≤◌, ◌*◌, ◌^◌, ◌≤ℤ◌, ◌<ℤ◌, ◌+ℤ◌, ◌↔◌, ℕ, pos, neg_ℤ};
ghost use Rattle.shape_rules.specs.Places.{IsItem, IsBound};

/// How many items the range `first:step:last` has, where all three are within ±(2^31 - 1); none with a step 0.
#[tactic(auto, using(crate::proofs::Ranges::no_step))]
pub fn range_items(first: i64, step: i64, last: i64) -> u64
    requires first { IsBound first }
    requires step { IsBound step }
    requires last { IsBound last }
    ensures { (k : ℕ) → (k < result) ↔ IsItem first step last k }
{
    if step > 0 {
        upward(first, step, last)
    } else if step < 0 {
        downward(first, step, last)
    } else {
        0
    }
}

// The same with a step up.
fn upward(first: i64, step: i64, last: i64) -> u64
    requires first { IsBound first }
    requires step { IsBound step }
    requires last { IsBound last }
    requires up { pos 0 <ℤ step }
    ensures { (k : ℕ) → (k < result) ↔ IsItem first step last k }
{
    if first <= last {
        let gap = apart(first, last);
        let size = apart(0, step);
        items(gap, size)
    } else {
        0
    }
}

// The same with a step down.
fn downward(first: i64, step: i64, last: i64) -> u64
    requires first { IsBound first }
    requires step { IsBound step }
    requires last { IsBound last }
    requires down { step <ℤ pos 0 }
    ensures { (k : ℕ) → (k < result) ↔ IsItem first step last k }
{
    if last <= first {
        let gap = apart(last, first);
        let size = apart(step, 0);
        items(gap, size)
    } else {
        0
    }
}

// How far apart two bounds are.
fn apart(low: i64, high: i64) -> u64
    requires order { low ≤ℤ high }
    requires least { neg_ℤ (pos (2 ^ 31)) <ℤ low }
    requires most { high <ℤ pos (2 ^ 31) }
    ensures value { high ≡ low +ℤ pos result }
    ensures few { result < 2 ^ 32 }
{
    (high - low) as u64
}

// How many items a gap has room for.
#[tactic(auto, using(crate::proofs::Ranges::counts))]
fn items(gap: u64, step: u64) -> u64
    requires some { 0 < step }
    requires few { gap < 2 ^ 32 }
    ensures { (k : ℕ) → (k < result) ↔ (k * step ≤ gap) }
{
    gap / step + 1
}
