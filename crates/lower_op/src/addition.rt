//! Sums and differences under a fimath.

ghost use Rattle.std.specs.Prelude.{◌≡◌, ◌≤◌, ◌^◌, IfOk};
ghost use Rattle.num_type.specs.View.{type_of};
ghost use Rattle.fi_math.specs.Made.{Is};
ghost use Rattle.fi_math.specs.Rules.{add_made, sub_made};
ghost use Rattle.c_tree.specs.View.{expr_view};
ghost use Rattle.lower_scalar.specs.Part.{part_view, reach};
ghost use Rattle.lower_scalar.specs.Operators.{Adds, Subtracts};
ghost use Rattle.lower_op.specs.Arguments.{operand};

use crate::casts::join_cast;
use crate::ends::Additive;
use crate::sums::{add_exact, subtract_exact};
use crate::types::{full_sum, is_same};
use c_tree::{CExpr, CPart};
use fi_math::Fimath;
use num_type::{Memory, NumType};
use std::alloc::Global;

/// The part that adds `a` of the type `p` and `b` of the type `q`, in the type `t` of the sum. Want of memory is the only refusal.
pub fn add(
    alloc: Global,
    m: Fimath,
    t: NumType,
    p: NumType,
    a: CExpr,
    q: NumType,
    b: CExpr,
    fresh: u32,
) -> Result<CPart, Memory>
    requires room { fresh ≤ 2 ^ 31 }
    requires made { add_made m (type_of p) (type_of q) ≡ Is (type_of t) }
    requires left { reach (expr_view a) ≤ fresh }
    requires right { reach (expr_view b) ≤ fresh }
    ensures { IfOk result (λ r. Adds m (type_of t) (operand p a) (operand q b) fresh (part_view r)) }
{
    if m.cast_before_sum {
        if is_same(t, full_sum(p, q)) {
            let r = add_exact(alloc, m, t, p, a, q, b, fresh)?;
            Ok(r)
        } else {
            let r = join_cast(alloc, Additive::Sum, m, t, p, a, q, b, fresh)?;
            Ok(r)
        }
    } else {
        let r = add_exact(alloc, m, t, p, a, q, b, fresh)?;
        Ok(r)
    }
}

/// The part that subtracts `b` from `a`, in the type `t` of the difference. Want of memory is the only refusal.
pub fn subtract(
    alloc: Global,
    m: Fimath,
    t: NumType,
    p: NumType,
    a: CExpr,
    q: NumType,
    b: CExpr,
    fresh: u32,
) -> Result<CPart, Memory>
    requires room { fresh ≤ 2 ^ 31 }
    requires made { sub_made m (type_of p) (type_of q) ≡ Is (type_of t) }
    requires left { reach (expr_view a) ≤ fresh }
    requires right { reach (expr_view b) ≤ fresh }
    ensures { IfOk result (λ r. Subtracts m (type_of t) (operand p a) (operand q b) fresh (part_view r)) }
{
    if m.cast_before_sum {
        let r = join_cast(alloc, Additive::Difference, m, t, p, a, q, b, fresh)?;
        Ok(r)
    } else {
        let r = subtract_exact(alloc, m, t, p, a, q, b, fresh)?;
        Ok(r)
    }
}
