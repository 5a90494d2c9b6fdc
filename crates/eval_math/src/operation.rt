//! Sums, differences and products.

ghost use Rattle.std.specs.Prelude.{◌≡◌, ◌&&◌, IfSome, option_map};
ghost use Rattle.num_type.specs.Types.{IsInRange};
ghost use Rattle.num_type.specs.View.{type_of};
ghost use Rattle.fi_math.specs.Made.{Is};
ghost use Rattle.fi_math.specs.View.{made_of};
ghost use Rattle.fi_rules.specs.Options.{where_so};
ghost use Rattle.fi_rules.specs.Pairs.{work_made};
ghost use Rattle.fi_eval.specs.Operators as operators;
ghost use Rattle.fi_values.specs.Arithmetic.{is_arithmetic, result_made};
ghost use Rattle.fi_values.specs.Sums as sums;
ghost use Rattle.eval_math.specs.View.{work_view};

use const_eval::ElementOp;
use fi_math::{Fimath, NoType, add_type, complex_product_type, product_type, sub_type};
use fi_ops::{Elem, add, mul, sub};
use fi_rules::Work;
use num_type::NumType;

/// The operation that a work is. None where it is another one.
#[tactic(auto, unfolding(fi_values::specs::Arithmetic::is_arithmetic, fi_rules::specs::Options::where_so))]
pub fn operation_of(work: Work) -> Option<ElementOp>
    ensures { option_map work_view result ≡ where_so (is_arithmetic work) work }
{
    match work {
        Work::Sum => Some(ElementOp::Sum),
        Work::Difference => Some(ElementOp::Difference),
        Work::Product => Some(ElementOp::Product),
        Work::Power => None,
        Work::Division => None,
        Work::Later => None,
    }
}

/// The type of a result by the governing fimath; of a product of two complex operands that of a sum of two products. None where it isn't
/// within the limits.
#[tactic(auto, unfolding(fi_values::specs::Arithmetic::result_made, fi_rules::specs::Pairs::work_made))]
pub fn result_type(
    op: ElementOp,
    complex: bool,
    m: &Fimath,
    a: NumType,
    b: NumType,
) -> Option<NumType>
    ensures value { option_map type_of result ≡ sums.made (result_made (work_view op) complex m.now (type_of a) (type_of b)) }
    ensures made { IfSome result (λ t. result_made (work_view op) complex m.now (type_of a) (type_of b) ≡ Is (type_of t)) }
{
    match op {
        ElementOp::Sum => within(add_type(m, a, b)),
        ElementOp::Difference => within(sub_type(m, a, b)),
        ElementOp::Product => {
            if complex {
                within(complex_product_type(m, a, b))
            } else {
                within(product_type(m, a, b))
            }
        }
    }
}

/// A type within the limits, if there is one.
#[tactic(auto, unfolding(fi_values::specs::Sums::made))]
pub fn within(found: Result<NumType, NoType>) -> Option<NumType>
    ensures value { option_map type_of result ≡ sums.made (made_of found) }
    ensures made { IfSome result (λ t. made_of found ≡ Is (type_of t)) }
{
    match found {
        Ok(t) => Some(t),
        Err(_) => None,
    }
}

/// The element of a result, of the type that `result_type` gives of two real operands.
#[tactic(auto, unfolding(fi_rules::specs::Pairs::work_made))]
pub fn element(op: ElementOp, m: &Fimath, t: NumType, a: Elem, b: Elem) -> Elem
    requires { work_made (work_view op) m.now (type_of a.num) (type_of b.num) ≡ Is (type_of t) }
    ensures num { result.num ≡ t }
    ensures value { result.z ≡ operators.element (work_view op) m.now (type_of t) (type_of a.num) (type_of b.num) a.z b.z }
    ensures inside { IsInRange (type_of t) result.z }
{
    match op {
        ElementOp::Sum => add(m, t, a, b),
        ElementOp::Difference => sub(m, t, a, b),
        ElementOp::Product => mul(m, t, a, b),
    }
}
