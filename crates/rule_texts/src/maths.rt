//! Texts of fimaths.

ghost use Rattle.std.specs.Prelude.{◌≡◌, ◌++◌, codes, decimal, OnOk};
ghost use Rattle.std.specs.Fmt.{signed_decimal};
ghost use Rattle.fi_rules.specs.Texts.{math_text, rounding_text, overflow_text, mode_text, truth_text};

use fi_math::{Fimath, Mode};
use num_type::{Memory, Overflow, Rounding};

/// Appends the nine properties of a fimath, joined by commas. Want of memory is the only refusal.
#[tactic(auto, unfolding(fi_rules::specs::Texts::math_text))]
pub fn put_math(m: &Fimath, out: &mut Vec<u8>) -> Result<(), Memory>
    ensures { OnOk result (out.new.items ≡ out.old.items ++ math_text m.now) }
{
    put_methods(m, out)?;
    put_sized(m.product_mode, m.product_word, m.product_fraction, out)?;
    put_sized(m.sum_mode, m.sum_word, m.sum_fraction, out)?;
    put_truth(m.cast_before_sum, out)?;
    Ok(())
}

// The rounding method and the overflow action, each with a comma behind it.
fn put_methods(m: &Fimath, out: &mut Vec<u8>) -> Result<(), Memory>
    ensures { OnOk result (out.new.items ≡ out.old.items ++ (rounding_text m.now.rounding ++ codes "," ++ overflow_text m.now.overflow ++ codes ",")) }
{
    put_rounding(m.rounding, out)?;
    out.extend_from_slice(b",")?;
    put_overflow(m.overflow, out)?;
    out.extend_from_slice(b",")?;
    Ok(())
}

// A mode, a word length and a fraction length, each with a comma behind it.
fn put_sized(mode: Mode, word: u32, fraction: i32, out: &mut Vec<u8>) -> Result<(), Memory>
    ensures { OnOk result (out.new.items ≡ out.old.items ++ (mode_text mode ++ codes "," ++ decimal word ++ codes "," ++ signed_decimal fraction ++ codes ",")) }
{
    let alloc = *out.allocator();
    put_mode(mode, out)?;
    out.extend_from_slice(b",")?;
    out.extend_from_slice(word.to_string(alloc)?.as_bytes())?;
    out.extend_from_slice(b",")?;
    out.extend_from_slice(fraction.to_string(alloc)?.as_bytes())?;
    out.extend_from_slice(b",")?;
    Ok(())
}

fn put_rounding(rounding: Rounding, out: &mut Vec<u8>) -> Result<(), Memory>
    ensures { OnOk result (out.new.items ≡ out.old.items ++ rounding_text rounding) }
{
    match rounding {
        Rounding::Ceiling => out.extend_from_slice(b"Ceiling")?,
        Rounding::Floor => out.extend_from_slice(b"Floor")?,
        Rounding::Zero => out.extend_from_slice(b"Zero")?,
        Rounding::Nearest => out.extend_from_slice(b"Nearest")?,
        Rounding::Round => out.extend_from_slice(b"Round")?,
        Rounding::Convergent => out.extend_from_slice(b"Convergent")?,
    }
    Ok(())
}

fn put_overflow(overflow: Overflow, out: &mut Vec<u8>) -> Result<(), Memory>
    ensures { OnOk result (out.new.items ≡ out.old.items ++ overflow_text overflow) }
{
    match overflow {
        Overflow::Saturate => out.extend_from_slice(b"Saturate")?,
        Overflow::Wrap => out.extend_from_slice(b"Wrap")?,
    }
    Ok(())
}

fn put_mode(mode: Mode, out: &mut Vec<u8>) -> Result<(), Memory>
    ensures { OnOk result (out.new.items ≡ out.old.items ++ mode_text mode) }
{
    match mode {
        Mode::FullPrecision => out.extend_from_slice(b"FullPrecision")?,
        Mode::KeepLSB => out.extend_from_slice(b"KeepLSB")?,
        Mode::KeepMSB => out.extend_from_slice(b"KeepMSB")?,
        Mode::SpecifyPrecision => out.extend_from_slice(b"SpecifyPrecision")?,
    }
    Ok(())
}

fn put_truth(truth: bool, out: &mut Vec<u8>) -> Result<(), Memory>
    ensures { OnOk result (out.new.items ≡ out.old.items ++ truth_text truth) }
{
    let text: &[u8] = if truth { b"true" } else { b"false" };
    out.extend_from_slice(text)?;
    Ok(())
}
