//! Operators with two operands: the governing fimath, and the types.

ghost use Rattle.std.specs.Prelude.{◌≡◌, IfOk};
ghost use Rattle.num_type.specs.View.{type_of};
ghost use Rattle.fi_math.specs.Govern.{governed};
ghost use Rattle.fi_math.specs.Made as made;
ghost use Rattle.fi_rules.specs.Pairs as rule;
ghost use Rattle.fi_rules.specs.declared.pairs.Side.TheVariants as side_of;
ghost use Rattle.fi_rules.specs.View.{at_fraction, checked_view, meeting_view, operand_side, side_view, working_view};

use crate::limits::{limited, typed};
use crate::missing::{Missing, Shown};
use crate::pairs::{Meeting, Operand, Side, Working};
use crate::work::Work;
use fi_math::{Fimath, Governed, add_type, govern, product_type, sub_type};
use fic_base::Code;
use num_type::{Int, NumType};

/// The same behind that: the governing fimath and the types. Its first missing condition is the refusal: FimathDiffers, and then TooWide or
/// FractionOut for the type of a constant to the left, of one to the right, and of the result.
#[tactic(auto, unfolding(crate::specs::Pairs::worked))]
pub fn work_out(work: Work, met: Meeting) -> Result<Working, Missing>
    ensures { checked_view working_view result ≡ rule.worked work (meeting_view met) }
{
    match met {
        Meeting::Folds(c) => Ok(Working::FoldsTo(c)),
        Meeting::Meets(a, b) => sides_worked(work, &a, &b),
    }
}

// An operation on two operands, at least one of them a fi.
#[tactic(auto, unfolding(crate::specs::Checked::bind))]
fn sides_worked(work: Work, a: &Side, b: &Side) -> Result<Working, Missing>
    ensures { checked_view working_view result ≡ rule.sides_worked work (side_view a.now) (side_view b.now) }
{
    match governing(a, b) {
        Ok(by) => governed_worked(work, &by, a, b),
        Err(missing) => Err(missing),
    }
}

// The same under a governing fimath.
#[tactic(auto, unfolding(crate::specs::Checked::bind))]
fn governed_worked(work: Work, by: &Governed, a: &Side, b: &Side) -> Result<Working, Missing>
    ensures { checked_view working_view result ≡ rule.typed work (side_view a.now) (side_view b.now) by.now }
{
    match operand(a) {
        Ok(x) => match operand(b) {
            Ok(y) => match made(work, &by.math, x.num, y.num) {
                Ok(t) => Ok(Working::Computes(x, y, *by, t)),
                Err(missing) => Err(missing),
            },
            Err(missing) => Err(missing),
        },
        Err(missing) => Err(missing),
    }
}

// The fimath that governs an operation.
#[tactic(auto, unfolding(crate::specs::Pairs::governed_checked))]
fn governing(a: &Side, b: &Side) -> Result<Governed, Missing>
    ensures { checked_view (λ g. g) result ≡ rule.governed_checked (governed (side_view a.now).math (side_view b.now).math) }
{
    match govern(math_of(a), math_of(b)) {
        Ok(by) => Ok(by),
        Err(differ) => Err(Missing {
            code: Code::FimathDiffers,
            shown: Shown::Differs(differ.left, differ.right),
        }),
    }
}

// The fimath that is attached to an operand.
fn math_of(side: &Side) -> Option<Fimath>
    ensures { result ≡ (side_view side.now).math }
{
    match side {
        Side::Fi(_, m) => *m,
        Side::Constant(_, _, _) => None,
    }
}

// An operand within the limits: those of a constant's own type are tested.
fn operand(side: &Side) -> Result<Operand, Missing>
    ensures num { checked_view (λ o. type_of o.num) result ≡ rule.limits_checked (rule.side_made (side_view side.now) (side_view side.now).stored) }
    ensures side { IfOk result (λ o. operand_side o ≡ side_view side.now) }
{
    match side {
        Side::Fi(t, m) => Ok(Operand {
            num: *t,
            math: *m,
            stored: None,
        }),
        Side::Constant(t, fraction, z) => constant_operand(*t, *fraction, *z),
    }
}

// The same of a constant.
fn constant_operand(t: NumType, fraction: i32, z: Int) -> Result<Operand, Missing>
    ensures num { checked_view (λ o. type_of o.num) result ≡ rule.limits_checked (made.limited 64 (at_fraction (type_of t) fraction)) }
    ensures side { IfOk result (λ o. operand_side o ≡ side_view (side_of.Constant t fraction z)) }
{
    match typed(t.signed(), t.word(), fraction) {
        Ok(num) => Ok(Operand {
            num,
            math: None,
            stored: Some(z),
        }),
        Err(missing) => Err(missing),
    }
}

// The type of a result by the governing fimath.
#[tactic(auto, unfolding(crate::specs::Pairs::work_made))]
fn made(work: Work, m: &Fimath, a: NumType, b: NumType) -> Result<NumType, Missing>
    ensures { checked_view type_of result ≡ rule.limits_checked (rule.work_made work m.now (type_of a) (type_of b)) }
{
    match work {
        Work::Sum => limited(add_type(m, a, b)),
        Work::Difference => limited(sub_type(m, a, b)),
        Work::Product => limited(product_type(m, a, b)),
        Work::Power => Ok(a),
        Work::Division => Ok(a),
        Work::Later => Ok(a),
    }
}
