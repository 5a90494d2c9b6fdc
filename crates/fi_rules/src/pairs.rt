//! Operators with two operands: whether they take operands of these types.

ghost use Rattle.std.specs.Prelude.{◌≡◌, [], ◌∷◌};
ghost use Rattle.num_type.specs.View.{exact_of, type_of};
ghost use Rattle.fi_rules.specs.Pairs as rule;
ghost use Rattle.fi_rules.specs.Types as types;
ghost use Rattle.fi_rules.specs.Value.{scalar};
ghost use Rattle.fi_rules.specs.View.{checked_view, meeting_view, ty_view};

use crate::beside::beside;
use crate::fold::{fold, fold_power};
use crate::missing::{Missing, Shown, itself};
use crate::ty::Ty;
use crate::work::Work;
use fi_math::{Fimath, Governed};
use fic_base::Code;
use num_type::{Dyadic, Int, NumType};

/// An operand of an operation on fis, before the limits of a constant's own type are tested.
#[derive(Clone, Copy)]
pub enum Side {
    /// A fi of this type, with the attached fimath.
    Fi(NumType, Option<Fimath>),
    /// A constant beside a fi: of the signedness and the word length of that one's type, with this fraction length and stored integer.
    Constant(NumType, i32, Int),
}

/// Two operands that an operator takes.
#[derive(Clone, Copy)]
pub enum Meeting {
    /// Two constants: the result.
    Folds(Dyadic),
    /// Two operands, at least one of them a fi.
    Meets(Side, Side),
}

/// An operand of an operation on fis.
#[derive(Clone, Copy)]
pub struct Operand {
    /// Its type.
    pub num: NumType,
    /// The attached fimath.
    pub math: Option<Fimath>,
    /// Of a constant, the stored integer.
    pub stored: Option<Int>,
}

/// What an operation comes to.
#[derive(Clone, Copy)]
pub enum Working {
    /// A constant.
    FoldsTo(Dyadic),
    /// An operation at run time: its operands, the governing fimath, and the type of its result.
    Computes(Operand, Operand, Governed, NumType),
}

/// Whether an operator takes operands of these types, before its node is counted. Its first missing condition is the refusal: Division,
/// Unsupported, BadArgument, and LiteralInexact where the result of constants is none, or a constant isn't exact beside a fi.
#[tactic(auto, unfolding(crate::specs::Pairs::met))]
pub fn meet(work: Work, x: &Ty, y: &Ty) -> Result<Meeting, Missing>
    ensures { checked_view meeting_view result ≡ rule.met work (ty_view x.now) (ty_view y.now) }
{
    match work {
        Work::Sum => sum_met(Work::Sum, x, y),
        Work::Difference => sum_met(Work::Difference, x, y),
        Work::Product => sum_met(Work::Product, x, y),
        Work::Power => power_met(x, y),
        Work::Division => Err(itself(Code::Division)),
        Work::Later => Err(itself(Code::Unsupported)),
    }
}

// The same of a sum, a difference or a product.
#[tactic(auto, unfolding(crate::specs::Pairs::sum_met))]
fn sum_met(work: Work, x: &Ty, y: &Ty) -> Result<Meeting, Missing>
    ensures { checked_view meeting_view result ≡ rule.sum_met work (ty_view x.now) (ty_view y.now) }
{
    match x {
        Ty::Fi(t, m) => fi_meets(*t, *m, y),
        Ty::Number(c) => number_meets(work, *c, y),
        Ty::Words(_) => Err(itself(Code::BadArgument)),
        Ty::Math(_) => Err(itself(Code::BadArgument)),
        Ty::Type(_) => Err(itself(Code::BadArgument)),
        Ty::Other => Err(itself(Code::BadArgument)),
    }
}

// A fi and what stands to its right.
#[tactic(auto, unfolding(crate::specs::Pairs::fi_meets))]
fn fi_meets(t: NumType, m: Option<Fimath>, y: &Ty) -> Result<Meeting, Missing>
    ensures { checked_view meeting_view result ≡ rule.fi_meets (type_of t) m (ty_view y.now) }
{
    match y {
        Ty::Fi(u, n) => Ok(Meeting::Meets(Side::Fi(t, m), Side::Fi(*u, *n))),
        Ty::Number(c) => fi_meets_constant(t, m, *c),
        Ty::Words(_) => Err(itself(Code::BadArgument)),
        Ty::Math(_) => Err(itself(Code::BadArgument)),
        Ty::Type(_) => Err(itself(Code::BadArgument)),
        Ty::Other => Err(itself(Code::BadArgument)),
    }
}

// A fi and a constant to its right.
#[tactic(auto, unfolding(crate::specs::Checked::bind))]
fn fi_meets_constant(t: NumType, m: Option<Fimath>, c: Dyadic) -> Result<Meeting, Missing>
    ensures { checked_view meeting_view result ≡ rule.fi_meets (type_of t) m (rule.scalar_number (exact_of c)) }
{
    match beside(t, c, Shown::RightConstant) {
        Ok(side) => Ok(Meeting::Meets(Side::Fi(t, m), side)),
        Err(missing) => Err(missing),
    }
}

// A constant and what stands to its right.
#[tactic(auto, unfolding(crate::specs::Pairs::number_meets))]
fn number_meets(work: Work, c: Dyadic, y: &Ty) -> Result<Meeting, Missing>
    ensures { checked_view meeting_view result ≡ rule.number_meets work scalar (exact_of c ∷ []) (ty_view y.now) }
{
    match y {
        Ty::Fi(u, n) => constant_meets_fi(work, c, *u, *n),
        Ty::Number(d) => numbers_meet(work, c, *d),
        Ty::Words(_) => Err(itself(Code::BadArgument)),
        Ty::Math(_) => Err(itself(Code::BadArgument)),
        Ty::Type(_) => Err(itself(Code::BadArgument)),
        Ty::Other => Err(itself(Code::BadArgument)),
    }
}

// A constant and a fi to its right.
fn constant_meets_fi(
    work: Work,
    c: Dyadic,
    t: NumType,
    m: Option<Fimath>,
) -> Result<Meeting, Missing>
    ensures { checked_view meeting_view result ≡ rule.number_meets work scalar (exact_of c ∷ []) (types.FiTy (type_of t) m) }
{
    match beside(t, c, Shown::LeftConstant) {
        Ok(side) => Ok(Meeting::Meets(side, Side::Fi(t, m))),
        Err(missing) => Err(missing),
    }
}

// Two constants.
fn numbers_meet(work: Work, c: Dyadic, d: Dyadic) -> Result<Meeting, Missing>
    ensures { checked_view meeting_view result ≡ rule.number_meets work scalar (exact_of c ∷ []) (rule.scalar_number (exact_of d)) }
{
    match fold(work, c, d) {
        Ok(result) => Ok(Meeting::Folds(result)),
        Err(missing) => Err(missing),
    }
}

// A power.
#[tactic(auto, unfolding(crate::specs::Pairs::power_met))]
fn power_met(x: &Ty, y: &Ty) -> Result<Meeting, Missing>
    ensures { checked_view meeting_view result ≡ rule.power_met (ty_view x.now) (ty_view y.now) }
{
    match x {
        Ty::Number(c) => constant_to_power(*c, y),
        Ty::Fi(_, _) => Err(itself(Code::Unsupported)),
        Ty::Words(_) => Err(itself(Code::Unsupported)),
        Ty::Math(_) => Err(itself(Code::Unsupported)),
        Ty::Type(_) => Err(itself(Code::Unsupported)),
        Ty::Other => Err(itself(Code::Unsupported)),
    }
}

// A power of a constant.
#[tactic(auto, unfolding(crate::specs::Pairs::power_met))]
fn constant_to_power(c: Dyadic, y: &Ty) -> Result<Meeting, Missing>
    ensures { checked_view meeting_view result ≡ rule.power_met (rule.scalar_number (exact_of c)) (ty_view y.now) }
{
    match y {
        Ty::Number(d) => numbers_to_power(c, *d),
        Ty::Fi(_, _) => Err(itself(Code::Unsupported)),
        Ty::Words(_) => Err(itself(Code::Unsupported)),
        Ty::Math(_) => Err(itself(Code::Unsupported)),
        Ty::Type(_) => Err(itself(Code::Unsupported)),
        Ty::Other => Err(itself(Code::Unsupported)),
    }
}

// A power of two constants.
fn numbers_to_power(c: Dyadic, d: Dyadic) -> Result<Meeting, Missing>
    ensures { checked_view meeting_view result ≡ rule.power_met (rule.scalar_number (exact_of c)) (rule.scalar_number (exact_of d)) }
{
    match fold_power(c, d) {
        Ok(result) => Ok(Meeting::Folds(result)),
        Err(missing) => Err(missing),
    }
}
