//! Sums, differences, products and signs of extreme operands, beside the calls on elements.

ghost use Rattle.std.specs.Prelude.{◌≡◌, IfOk};
ghost use Rattle.num_type.specs.View.{type_of};
ghost use Rattle.fi_math.specs.Made.{Is};
ghost use Rattle.fi_math.specs.Rules.{add_made, product_made, sub_made};
ghost use Rattle.lower_scalar.specs.Part.{part_view};
ghost use Rattle.lower_op.specs.Operations.{IsOfOne, IsOfTwo};
ghost use Rattle.part_run.specs.PartProgram.{Computes};

use crate::cases::{ACTIONS, NUMBERS, OTHERS, Parts, element, gives, made};
use array_ir::{FlatOp, Op};
use c_tree::CPart;
use fi_math::{Fimath, Mode, add_type, product_type, sub_type};
use fi_ops::Elem;
use lower_op::{CArg, lower_op};
use num_type::{Memory, NumType, Overflow, Rounding};
use std::alloc::Global;
use std::test::Fail;

/// Types of operands of sums and products.
const OPERANDS: [Parts; 8] = [
    (true, 64, 0),
    (true, 63, 64),
    (true, 31, 3),
    (true, 1, 0),
    (true, 8, 4),
    (false, 64, 0),
    (false, 32, 1),
    (false, 9, 5),
];

/// A mode of products and sums with its word length and fraction length.
type Way = (Mode, u32, i32);

const FULL: Way = (Mode::FullPrecision, 32, 30);

const LOW: Way = (Mode::KeepLSB, 16, 0);

const HIGH: Way = (Mode::KeepMSB, 16, 0);

const WIDE: Way = (Mode::SpecifyPrecision, 64, 0);

const NARROW: Way = (Mode::SpecifyPrecision, 8, -3);

/// A rounding method, CastBeforeSum, and a mode.
type Rules = (Rounding, bool, Way);

/// Those of fimaths that saturate.
const SATURATING: [Rules; 4] = [
    (Rounding::Round, true, FULL),
    (Rounding::Round, false, WIDE),
    (Rounding::Convergent, true, NARROW),
    (Rounding::Zero, false, HIGH),
];

/// Those of fimaths that wrap.
const WRAPPING: [Rules; 4] = [
    (Rounding::Convergent, false, FULL),
    (Rounding::Convergent, true, WIDE),
    (Rounding::Round, false, NARROW),
    (Rounding::Floor, true, LOW),
];

/// The fimath with these properties.
fn math(overflow: Overflow, rules: Rules) -> Fimath {
    let (rounding, cast_before_sum, way) = rules;
    Fimath {
        rounding,
        overflow,
        product_mode: way.0,
        product_word: way.1,
        product_fraction: way.2,
        sum_mode: way.0,
        sum_word: way.1,
        sum_fraction: way.2,
        cast_before_sum,
    }
}

/// The part of an operation on variables 0 and 1.
fn computing(
    alloc: Global,
    op: Op,
    m: &Fimath,
    t: NumType,
    p: NumType,
    q: NumType,
) -> Result<CPart, Memory>
    requires { IsOfTwo op m.now (type_of t) (type_of p) (type_of q) }
    ensures { IfOk result (λ r. Computes (type_of p) (type_of q) t.signed (part_view r)) }
{
    let o = FlatOp {
        op,
        math: *m,
        result: Some(t),
        part: 0,
    };
    let args = [
        CArg::Real(p, c_tree::variable(0)),
        CArg::Real(q, c_tree::variable(1)),
    ];
    let r = lower_op(alloc, &o, &args, 2)?;
    Ok(r)
}

/// Whether a sum gives what `add` does, where it has a type.
fn adds(alloc: Global, m: &Fimath, a: &Elem, b: &Elem) -> Result<bool, Memory> {
    match add_type(m, a.num, b.num) {
        Ok(t) => {
            let same = adds_in(alloc, m, t, a, b)?;
            Ok(same)
        }
        Err(_) => Ok(true),
    }
}

fn adds_in(alloc: Global, m: &Fimath, t: NumType, a: &Elem, b: &Elem) -> Result<bool, Memory>
    requires { add_made m.now (type_of a.now.num) (type_of b.now.num) ≡ Is (type_of t) }
{
    let part = computing(alloc, Op::Add, m, t, a.num, b.num)?;
    let want = fi_ops::add(m, t, *a, *b);
    let same = gives(alloc, part, *a, *b, want)?;
    Ok(same)
}

/// The same of a difference and `sub`.
fn subtracts(alloc: Global, m: &Fimath, a: &Elem, b: &Elem) -> Result<bool, Memory> {
    match sub_type(m, a.num, b.num) {
        Ok(t) => {
            let same = subtracts_in(alloc, m, t, a, b)?;
            Ok(same)
        }
        Err(_) => Ok(true),
    }
}

fn subtracts_in(alloc: Global, m: &Fimath, t: NumType, a: &Elem, b: &Elem) -> Result<bool, Memory>
    requires { sub_made m.now (type_of a.now.num) (type_of b.now.num) ≡ Is (type_of t) }
{
    let part = computing(alloc, Op::Sub, m, t, a.num, b.num)?;
    let want = fi_ops::sub(m, t, *a, *b);
    let same = gives(alloc, part, *a, *b, want)?;
    Ok(same)
}

/// The same of a product and `mul`.
fn multiplies(alloc: Global, m: &Fimath, a: &Elem, b: &Elem) -> Result<bool, Memory> {
    match product_type(m, a.num, b.num) {
        Ok(t) => {
            let same = multiplies_in(alloc, m, t, a, b)?;
            Ok(same)
        }
        Err(_) => Ok(true),
    }
}

fn multiplies_in(alloc: Global, m: &Fimath, t: NumType, a: &Elem, b: &Elem) -> Result<bool, Memory>
    requires { product_made m.now (type_of a.now.num) (type_of b.now.num) ≡ Is (type_of t) }
{
    let part = computing(alloc, Op::Mul, m, t, a.num, b.num)?;
    let want = fi_ops::mul(m, t, *a, *b);
    let same = gives(alloc, part, *a, *b, want)?;
    Ok(same)
}

/// Whether the three operations on numbers of two types give what the calls do.
fn operates(alloc: Global, m: &Fimath, p: NumType, q: NumType) -> Result<bool, Memory> {
    for x in OTHERS {
        for y in OTHERS {
            let a = element(p, x);
            let b = element(q, y);
            if !adds(alloc, m, &a, &b)? {
                return Ok(false);
            }
            if !subtracts(alloc, m, &a, &b)? {
                return Ok(false);
            }
            if !multiplies(alloc, m, &a, &b)? {
                return Ok(false);
            }
        }
    }
    Ok(true)
}

/// The same of all types of operands.
fn operates_on_all(alloc: Global, m: &Fimath) -> Result<bool, Memory> {
    for x in OPERANDS {
        for y in OPERANDS {
            let (Some(p), Some(q)) = (made(x), made(y)) else {
                return Ok(false);
            };
            if !operates(alloc, m, p, q)? {
                return Ok(false);
            }
        }
    }
    Ok(true)
}

#[test]
fn operates_and_saturates(rt: HostRuntime) -> Result<(), Fail> {
    let alloc = rt.alloc();
    for rules in SATURATING {
        let m = math(Overflow::Saturate, rules);
        let same = operates_on_all(alloc, &m)?;
        assert!(rt; same);
    }
    Ok(())
}

#[test]
fn operates_and_wraps(rt: HostRuntime) -> Result<(), Fail> {
    let alloc = rt.alloc();
    for rules in WRAPPING {
        let m = math(Overflow::Wrap, rules);
        let same = operates_on_all(alloc, &m)?;
        assert!(rt; same);
    }
    Ok(())
}

/// The part of an operation on variable 0.
fn turning(alloc: Global, op: Op, m: &Fimath, p: NumType) -> Result<CPart, Memory>
    requires { IsOfOne op }
    ensures { IfOk result (λ r. Computes (type_of p) (type_of p) p.signed (part_view r)) }
{
    let o = FlatOp {
        op,
        math: *m,
        result: Some(p),
        part: 0,
    };
    let args = [CArg::Real(p, c_tree::variable(0))];
    let r = lower_op(alloc, &o, &args, 2)?;
    Ok(r)
}

/// Whether a negation gives what `neg` does, and a value without its sign what `abs` does.
fn turns(alloc: Global, m: &Fimath, a: Elem) -> Result<bool, Memory> {
    let minus = turning(alloc, Op::Neg, m, a.num)?;
    let opposite = fi_ops::neg(m, a);
    let negates = gives(alloc, minus, a, a, opposite)?;
    let size = turning(alloc, Op::Abs, m, a.num)?;
    let positive = fi_ops::abs(m, a);
    let measures = gives(alloc, size, a, a, positive)?;
    Ok(negates && measures)
}

/// The same of all numbers of all types of operands.
fn turns_all(alloc: Global, m: &Fimath) -> Result<bool, Memory> {
    for x in OPERANDS {
        let Some(p) = made(x) else {
            return Ok(false);
        };
        for number in NUMBERS {
            if !turns(alloc, m, element(p, number))? {
                return Ok(false);
            }
        }
    }
    Ok(true)
}

#[test]
fn turns_extremes(rt: HostRuntime) -> Result<(), Fail> {
    let alloc = rt.alloc();
    for action in ACTIONS {
        let m = math(action, (Rounding::Floor, true, FULL));
        let same = turns_all(alloc, &m)?;
        assert!(rt; same);
    }
    Ok(())
}
