//! Products.

ghost use Rattle.std.specs.Prelude.{◌≡◌, ◌≤◌, ◌^◌, IfOk};
ghost use Rattle.num_type.specs.View.{type_of};
ghost use Rattle.fi_math.specs.Made.{Is};
ghost use Rattle.fi_math.specs.Rules.{product_made};
ghost use Rattle.c_tree.specs.View.{expr_view};
ghost use Rattle.lower_scalar.specs.Part.{part_view, reach};
ghost use Rattle.lower_scalar.specs.Operators;
ghost use Rattle.lower_scalar.specs.Operators.{Multiplies};
ghost use Rattle.lower_op.specs.Arguments.{operand};

use crate::types::full_product;
use c_tree::{CExpr, COp, CPart};
use fi_math::Fimath;
use lower_scalar::{quantise_part, resigned};
use num_type::{Memory, NumType};
use std::alloc::Global;

/// The part that multiplies `a` of the type `p` and `b` of the type `q`: exact, then taken to the type `t`, which is that of the
/// product. Want of memory is the only refusal.
pub fn multiply(
    alloc: Global,
    m: Fimath,
    t: NumType,
    p: NumType,
    a: CExpr,
    q: NumType,
    b: CExpr,
    fresh: u32,
) -> Result<CPart, Memory>
    requires room { fresh ≤ 2 ^ 31 }
    requires made { product_made m (type_of p) (type_of q) ≡ Is (type_of t) }
    requires left { reach (expr_view a) ≤ fresh }
    requires right { reach (expr_view b) ≤ fresh }
    ensures { IfOk result (λ r. Multiplies m (type_of t) (operand p a) (operand q b) fresh (part_view r)) }
{
    let full = full_product(p, q);
    let product = product_of(alloc, p, a, q, b)?;
    let r = quantise_part(alloc, t, m.rounding, m.overflow, full, product, fresh)?;
    Ok(r)
}

// The exact product, as a word of its full type.
fn product_of(alloc: Global, p: NumType, a: CExpr, q: NumType, b: CExpr) -> Result<CExpr, Memory>
    ensures { IfOk result (λ r. expr_view r ≡ Operators.product_of (operand p a) (operand q b)) }
{
    let signed = p.signed() | q.signed();
    match resigned(alloc, p.signed(), signed, a) {
        Ok(left) => match resigned(alloc, q.signed(), signed, b) {
            Ok(right) => c_tree::binary(alloc, COp::Mul, left, right),
            Err(error) => {
                drop(left);
                Err(error)
            }
        },
        Err(error) => {
            drop(b);
            Err(error)
        }
    }
}
