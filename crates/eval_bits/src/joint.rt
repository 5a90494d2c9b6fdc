//! What two elements make together.

ghost use Rattle.std.specs.Prelude.{◌≡◌, All, IfOk, length, map, vec_len};
ghost use Rattle.num_type.specs.Types.{IsInRange};
ghost use Rattle.num_type.specs.View.{type_of};
ghost use Rattle.fi_ops.specs.View.{element_of};
ghost use Rattle.fi_eval.specs.Operators.{pairwise};
ghost use Rattle.eval_bits.specs.Joints.{AreInRange, CanJoin, IsFitting, bits_met, joined, joined_pair, joint_type, paired_count};

use crate::pair::paired;
use fi_ops::{Elem, bit_and, bit_concat, bit_or, bit_xor};
use num_type::{Int, Memory, NumType};
use std::alloc::Global;

/// An operation on the bits of two elements of one type.
#[derive(Clone, Copy, Debug, PartialEq, Eq)]
pub enum Bitwise {
    /// The bits that both have (bitand).
    And,
    /// The bits that either has (bitor).
    Or,
    /// The bits that just one has (bitxor).
    Xor,
}

/// What two elements make together.
#[derive(Clone, Copy)]
pub enum Joint {
    /// An operation on the bits of two elements of one type.
    Met(Bitwise),
    /// The bits of the first on top of those of the second, no more than 64.
    Concatenated,
}

/// The stored integers that the elements of two operands make; a single element goes with each of the other. Want of memory is the only
/// refusal.
pub fn joined(
    alloc: Global,
    joint: &Joint,
    a: NumType,
    b: NumType,
    xs: &[Int],
    ys: &[Int],
) -> Result<Vec<Int>, Memory>
    requires can { CanJoin joint.now a b }
    requires fitting { IsFitting (length xs.now) (length ys.now) }
    requires left { All (IsInRange (type_of a)) xs.now }
    requires right { All (IsInRange (type_of b)) ys.now }
    ensures elements { IfOk result (λ v. v.items ≡ pairwise (joined joint.now (type_of a) (type_of b)) xs.now ys.now) }
    ensures count { IfOk result (λ v. vec_len v ≡ paired_count (length xs.now) (length ys.now)) }
    ensures inside { IfOk result (λ v. All (IsInRange (joint_type joint.now (type_of a) (type_of b))) v.items) }
{
    let pairs = paired(alloc, xs, ys)?;
    let out = each(alloc, joint, &a, &b, pairs.as_slice())?;
    Ok(out)
}

// What pairs of elements of these types make. Want of memory is the only refusal.
fn each(
    alloc: Global,
    joint: &Joint,
    a: &NumType,
    b: &NumType,
    pairs: &[(Int, Int)],
) -> Result<Vec<Int>, Memory>
    requires can { CanJoin joint.now a.now b.now }
    requires inside { All (AreInRange (type_of a.now) (type_of b.now)) pairs.now }
    ensures elements { IfOk result (λ v. v.items ≡ map (joined_pair joint.now (type_of a.now) (type_of b.now)) pairs.now) }
    ensures count { IfOk result (λ v. vec_len v ≡ length pairs.now) }
    ensures inside { IfOk result (λ v. All (IsInRange (joint_type joint.now (type_of a.now) (type_of b.now))) v.items) }
{
    let mut out = Vec::new(alloc);
    for (x, y) in pairs {
        out.push(stored(joint, a, b, *x, *y))?;
    }
    Ok(out)
}

// The stored integer that two elements make.
fn stored(joint: &Joint, a: &NumType, b: &NumType, x: Int, y: Int) -> Int
    requires can { CanJoin joint.now a.now b.now }
    requires left { IsInRange (type_of a.now) x }
    requires right { IsInRange (type_of b.now) y }
    ensures value { result ≡ joined joint.now (type_of a.now) (type_of b.now) x y }
    ensures inside { IsInRange (joint_type joint.now (type_of a.now) (type_of b.now)) result }
{
    let e = join(joint, Elem { num: *a, z: x }, Elem { num: *b, z: y });
    e.z
}

// The element that two elements make.
#[tactic(auto, unfolding(crate::specs::Joints::joined, crate::specs::Joints::joint_type))]
fn join(joint: &Joint, a: Elem, b: Elem) -> Elem
    requires { CanJoin joint.now a.num b.num }
    ensures num { type_of result.num ≡ joint_type joint.now (type_of a.num) (type_of b.num) }
    ensures value { result.z ≡ joined joint.now (type_of a.num) (type_of b.num) a.z b.z }
{
    match joint {
        Joint::Met(op) => bits_met(*op, a, b),
        Joint::Concatenated => match bit_concat(a, b) {
            Some(e) => e,
            None => unreachable!(),
        },
    }
}

// The element that the bits of two of one type make.
fn bits_met(op: Bitwise, a: Elem, b: Elem) -> Elem
    requires { a.num ≡ b.num }
    ensures num { result.num ≡ a.num }
    ensures value { result.z ≡ bits_met op (element_of a) (element_of b) }
{
    match op {
        Bitwise::And => bit_and(a, b),
        Bitwise::Or => bit_or(a, b),
        Bitwise::Xor => bit_xor(a, b),
    }
}
