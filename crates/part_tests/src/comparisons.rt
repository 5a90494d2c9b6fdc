//! Comparisons of extreme values, beside the order of their exact values, and some worked by hand.

ghost use Rattle.std.specs.Prelude.{◌≡◌, IfOk, Some, true};
ghost use Rattle.num_type.specs.View.{type_of};
ghost use Rattle.lower_scalar.specs.Part.{part_view};
ghost use Rattle.lower_op.specs.Arguments.{truth_num};
ghost use Rattle.lower_op.specs.Comparisons.{IsEquality, relation_of};
ghost use Rattle.part_run.specs.PartProgram.{Computes};

use crate::cases::{Number, OTHERS, Parts, TYPES, element, gives, made};
use array_ir::{FlatOp, Op};
use c_tree::{CPart, CRel};
use fi_math::Fimath;
use fi_ops::Elem;
use lower_op::{CArg, lower_op};
use num_type::{Memory, NumType};
use std::alloc::Global;
use std::cmp::Ordering;
use std::test::Fail;

const RELATIONS: [CRel; 6] = [CRel::Eq, CRel::Ne, CRel::Lt, CRel::Le, CRel::Gt, CRel::Ge];

/// The operation that tests a relation.
fn op_of(rel: CRel) -> Op
    ensures { relation_of result ≡ Some rel }
{
    match rel {
        CRel::Eq => Op::Eq,
        CRel::Ne => Op::Ne,
        CRel::Lt => Op::Lt,
        CRel::Le => Op::Le,
        CRel::Gt => Op::Gt,
        CRel::Ge => Op::Ge,
    }
}

/// The part of a comparison of variables 0 and 1.
fn comparing(alloc: Global, rel: CRel, p: NumType, q: NumType) -> Result<CPart, Memory>
    ensures { IfOk result (λ r. Computes (type_of p) (type_of q) true (part_view r)) }
{
    let o = FlatOp {
        op: op_of(rel),
        math: Fimath::usual(),
        result: None,
        part: 0,
    };
    let args = [
        CArg::Real(p, c_tree::variable(0)),
        CArg::Real(q, c_tree::variable(1)),
    ];
    let r = lower_op(alloc, &o, &args, 2)?;
    Ok(r)
}

/// The type of whose numbers logical values are 0 and 1.
fn truth_type() -> NumType
    ensures { type_of result ≡ truth_num }
{
    match NumType::make(true, 2, 0) {
        Some(t) => t,
        None => unreachable!(),
    }
}

/// A logical value.
fn logical(holds: bool) -> Elem
    ensures { type_of result.num ≡ truth_num }
{
    element(truth_type(), (false, if holds { 1 } else { 0 }))
}

/// Whether a comparison of two values gives this.
fn compares(alloc: Global, rel: CRel, a: Elem, b: Elem, want: bool) -> Result<bool, Memory> {
    let part = comparing(alloc, rel, a.num, b.num)?;
    let truth = logical(want);
    let same = gives(alloc, part, a, b, truth)?;
    Ok(same)
}

/// Whether a relation holds between numbers in an order.
fn holds_in(rel: CRel, order: Ordering) -> bool {
    match rel {
        CRel::Eq => order == Ordering::Equal,
        CRel::Ne => order != Ordering::Equal,
        CRel::Lt => order == Ordering::Less,
        CRel::Le => order != Ordering::Greater,
        CRel::Gt => order == Ordering::Greater,
        CRel::Ge => order != Ordering::Less,
    }
}

/// Whether a comparison of numbers of two types gives what the order of their exact values says.
fn compares_numbers(alloc: Global, rel: CRel, p: Parts, q: Parts) -> Result<bool, Memory> {
    let (Some(p), Some(q)) = (made(p), made(q)) else {
        return Ok(false);
    };
    for x in OTHERS {
        for y in OTHERS {
            let a = element(p, x);
            let b = element(q, y);
            let want = holds_in(rel, fi_ops::compare(a, b));
            if !compares(alloc, rel, a, b, want)? {
                return Ok(false);
            }
        }
    }
    Ok(true)
}

#[test]
fn compares_extremes(rt: HostRuntime) -> Result<(), Fail> {
    let alloc = rt.alloc();
    for p in TYPES {
        for q in TYPES {
            for rel in RELATIONS {
                let same = compares_numbers(alloc, rel, p, q)?;
                assert!(rt; same);
            }
        }
    }
    Ok(())
}

/// A type, and a number of it.
type Value = (Parts, Number);

/// Whether the six relations give these truth values.
fn relates(alloc: Global, x: Value, y: Value, want: [bool; 6]) -> Result<bool, Memory> {
    let (Some(p), Some(q)) = (made(x.0), made(y.0)) else {
        return Ok(false);
    };
    let a = element(p, x.1);
    let b = element(q, y.1);
    for i in 0..6usize {
        if !compares(alloc, RELATIONS[i], a, b, want[i])? {
            return Ok(false);
        }
    }
    Ok(true)
}

const LESS: [bool; 6] = [false, true, true, true, false, false];

const EQUAL: [bool; 6] = [true, false, false, true, false, true];

const GREATER: [bool; 6] = [false, true, false, false, true, true];

/// Two values, and what the six relations give for them.
const COMPARED: [(Value, Value, [bool; 6]); 11] = [
    (
        ((true, 8, 4), (false, 9)),
        ((false, 8, 1), (false, 1)),
        GREATER,
    ),
    (
        ((true, 8, 4), (false, 8)),
        ((false, 8, 1), (false, 1)),
        EQUAL,
    ),
    (
        ((true, 8, 4), (false, 7)),
        ((false, 8, 1), (false, 1)),
        LESS,
    ),
    (((true, 8, 4), (true, 9)), ((true, 8, 1), (true, 1)), LESS),
    (
        ((false, 64, 0), (false, 18446744073709551615)),
        ((true, 64, 0), (true, 1)),
        GREATER,
    ),
    (((true, 1, 0), (true, 1)), ((false, 1, 0), (false, 0)), LESS),
    (
        ((true, 64, -256), (true, 1)),
        ((true, 64, 256), (true, 9223372036854775808)),
        LESS,
    ),
    (
        ((true, 64, 256), (true, 1)),
        ((false, 64, -256), (false, 0)),
        LESS,
    ),
    (
        ((false, 64, 64), (false, 18446744073709551615)),
        ((false, 1, 0), (false, 1)),
        LESS,
    ),
    (
        ((true, 64, 64), (true, 9223372036854775808)),
        ((true, 1, 0), (true, 1)),
        GREATER,
    ),
    (
        ((false, 64, -256), (false, 0)),
        ((true, 64, 256), (false, 0)),
        EQUAL,
    ),
];

#[test]
fn compares_by_hand(rt: HostRuntime) -> Result<(), Fail> {
    let alloc = rt.alloc();
    for (x, y, want) in COMPARED {
        let same = relates(alloc, x, y, want)?;
        assert!(rt; same);
    }
    Ok(())
}

/// The part of a test of two logical values, in variables 0 and 1.
fn testing(alloc: Global, op: Op) -> Result<CPart, Memory>
    requires { IsEquality op }
    ensures { IfOk result (λ r. Computes truth_num truth_num true (part_view r)) }
{
    let o = FlatOp {
        op,
        math: Fimath::usual(),
        result: None,
        part: 0,
    };
    let args = [
        CArg::Bool(c_tree::variable(0)),
        CArg::Bool(c_tree::variable(1)),
    ];
    let r = lower_op(alloc, &o, &args, 2)?;
    Ok(r)
}

/// Whether a test of two logical values gives this.
fn decides(alloc: Global, op: Op, x: bool, y: bool, want: bool) -> Result<bool, Memory>
    requires { IsEquality op }
{
    let part = testing(alloc, op)?;
    let left = logical(x);
    let right = logical(y);
    let truth = logical(want);
    let same = gives(alloc, part, left, right, truth)?;
    Ok(same)
}

#[test]
fn tests_logical_values(rt: HostRuntime) -> Result<(), Fail> {
    let alloc = rt.alloc();
    for (x, y, same) in [
        (false, false, true),
        (false, true, false),
        (true, false, false),
        (true, true, true),
    ] {
        assert!(rt; decides(alloc, Op::Eq, x, y, same)?);
        assert!(rt; decides(alloc, Op::Ne, x, y, !same)?);
    }
    Ok(())
}
