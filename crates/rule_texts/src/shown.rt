//! What a refusal shows.

ghost use Rattle.std.specs.Prelude.{◌≡◌, ◌++◌, codes, OnOk};
ghost use Rattle.fi_rules.specs.Texts.{counts_text, math_text, shown_text};
ghost use Rattle.fi_rules.specs.View.{shown_view};

use crate::maths::put_math;
use crate::whole::{put_fraction, put_whole, put_word};
use fi_math::Fimath;
use fi_rules::Shown;
use num_type::Memory;

/// Appends what a refusal shows: what stands in the source is `itself`, with `left` and `right` beside it. A whole number has all its
/// digits. Want of memory is the only refusal.
#[tactic(auto, unfolding(fi_rules::specs::Texts::shown_text))]
pub fn put_shown(
    itself: &[u8],
    left: &[u8],
    right: &[u8],
    shown: Shown,
    out: &mut Vec<u8>,
) -> Result<(), Memory>
    ensures { OnOk result (out.new.items ≡ out.old.items ++ shown_text (record { itself = itself.now; left = left.now; right = right.now }) (shown_view shown)) }
{
    match shown {
        Shown::Itself => out.extend_from_slice(itself)?,
        Shown::LeftConstant => out.extend_from_slice(left)?,
        Shown::RightConstant => out.extend_from_slice(right)?,
        Shown::Counts(have, want) => put_counts(have, want, out)?,
        Shown::Word(word) => put_word(word, out)?,
        Shown::Fraction(fraction) => put_fraction(fraction, out)?,
        Shown::Whole(whole) => put_whole(whole, out)?,
        Shown::Differs(m, n) => put_differs(&m, &n, out)?,
    }
    Ok(())
}

// So many arguments, and so many that are wanted.
fn put_counts(have: usize, want: usize, out: &mut Vec<u8>) -> Result<(), Memory>
    ensures { OnOk result (out.new.items ≡ out.old.items ++ counts_text have want) }
{
    let alloc = *out.allocator();
    out.extend_from_slice(have.to_string(alloc)?.as_bytes())?;
    out.extend_from_slice(b" for ")?;
    out.extend_from_slice(want.to_string(alloc)?.as_bytes())?;
    Ok(())
}

// Two unequal fimaths.
fn put_differs(m: &Fimath, n: &Fimath, out: &mut Vec<u8>) -> Result<(), Memory>
    ensures { OnOk result (out.new.items ≡ out.old.items ++ (math_text m.now ++ codes " differs from " ++ math_text n.now)) }
{
    put_math(m, out)?;
    out.extend_from_slice(b" differs from ")?;
    put_math(n, out)?;
    Ok(())
}
