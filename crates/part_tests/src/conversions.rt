//! Quantisation between extreme types, beside `quantise`.

ghost use Rattle.std.specs.Prelude.{IfOk};
ghost use Rattle.num_type.specs.View.{type_of};
ghost use Rattle.lower_scalar.specs.Part.{part_view};
ghost use Rattle.part_run.specs.PartProgram.{Computes};

use crate::cases::{NUMBERS, Parts, TYPES, element, gives, made};
use c_tree::CPart;
use fi_ops::Elem;
use fi_quant::quantise;
use lower_scalar::lower_quantise;
use num_type::{Memory, NumType, Overflow, Rounding};
use std::alloc::Global;
use std::test::Fail;

const METHODS: [Rounding; 6] = [
    Rounding::Ceiling,
    Rounding::Floor,
    Rounding::Zero,
    Rounding::Nearest,
    Rounding::Round,
    Rounding::Convergent,
];

/// The part that takes variable 0 to a type.
fn quantising(
    alloc: Global,
    t: NumType,
    method: Rounding,
    action: Overflow,
    from: NumType,
) -> Result<CPart, Memory>
    ensures { IfOk result (λ p. Computes (type_of from) (type_of from) t.signed (part_view p)) }
{
    let p = lower_quantise(alloc, t, method, action, from, c_tree::variable(0), 2)?;
    Ok(p)
}

/// Whether numbers of one type are taken to another as `quantise` does.
fn quantises(
    alloc: Global,
    from: NumType,
    t: NumType,
    method: Rounding,
    action: Overflow,
) -> Result<bool, Memory> {
    for number in NUMBERS {
        let a = element(from, number);
        let want = Elem {
            num: t,
            z: quantise(t, method, action, a.z, from.fraction()),
        };
        let part = quantising(alloc, t, method, action, a.num)?;
        if !gives(alloc, part, a, a, want)? {
            return Ok(false);
        }
    }
    Ok(true)
}

/// The same by all methods.
fn quantises_by_all(
    alloc: Global,
    from: Parts,
    t: Parts,
    action: Overflow,
) -> Result<bool, Memory> {
    let (Some(from), Some(t)) = (made(from), made(t)) else {
        return Ok(false);
    };
    for method in METHODS {
        if !quantises(alloc, from, t, method, action)? {
            return Ok(false);
        }
    }
    Ok(true)
}

#[test]
fn saturates_extremes(rt: HostRuntime) -> Result<(), Fail> {
    let alloc = rt.alloc();
    for from in TYPES {
        for t in TYPES {
            let same = quantises_by_all(alloc, from, t, Overflow::Saturate)?;
            assert!(rt; same);
        }
    }
    Ok(())
}

#[test]
fn wraps_extremes(rt: HostRuntime) -> Result<(), Fail> {
    let alloc = rt.alloc();
    for from in TYPES {
        for t in TYPES {
            let same = quantises_by_all(alloc, from, t, Overflow::Wrap)?;
            assert!(rt; same);
        }
    }
    Ok(())
}
