//! Operators and signs on values.

ghost use Rattle.std.specs.Prelude.{◌≡◌, IfOk};
ghost use Rattle.fi_meaning.specs.Operators as operators;
ghost use Rattle.eval_value.specs.View.{item_view, value_view};

use eval_bits::{both, either, power};
use eval_math::{arithmetic, compared, multiplied};
use eval_value::Value;
use fi_rules::Work;
use mat_ast::{BinOp, UnOp};
use num_type::Memory;
use std::alloc::Global;

/// What an operator makes of two values that are both evaluated. None where no rule gives a result; want of memory is the only refusal.
#[tactic(auto, using(crate::proofs::Comparing::compared_is), unfolding(fi_meaning::specs::Operators::by_operator))]
pub fn operate(alloc: Global, op: BinOp, x: &Value, y: &Value) -> Result<Option<Value>, Memory>
    ensures { IfOk result (λ r. item_view r ≡ operators.by_operator op (value_view x.now) (value_view y.now)) }
{
    match op {
        BinOp::Add => arithmetic(alloc, Work::Sum, x, y),
        BinOp::Sub => arithmetic(alloc, Work::Difference, x, y),
        BinOp::ElemMul => arithmetic(alloc, Work::Product, x, y),
        BinOp::Mul => multiplied(alloc, x, y),
        BinOp::Pow => power(alloc, x, y),
        BinOp::ElemPow => power(alloc, x, y),
        BinOp::And => both(alloc, x, y),
        BinOp::Or => either(alloc, x, y),
        _ => {
            let r = compared(alloc, op, x, y)?;
            Ok(r)
        }
    }
}

/// A sign, or `~`, before a value. None where no rule gives a result; want of memory is the only refusal.
pub fn signed(alloc: Global, sign: UnOp, value: &Value) -> Result<Option<Value>, Memory>
    ensures { IfOk result (λ r. item_view r ≡ operators.by_sign sign (value_view value.now)) }
{
    eval_bits::signed(alloc, sign, value)
}
