//! The types of expressions.

ghost use Rattle.std.specs.Prelude.{◌≡◌};
ghost use Rattle.num_type.specs.View.{exact_of, type_of};
ghost use Rattle.fi_rules.specs.Types as types;
ghost use Rattle.fi_rules.specs.View.{ty_view};
ghost use Rattle.fi_rules.specs.Pairs.{scalar_number};

use fi_math::Fimath;
use fic_base::Text;
use num_type::{Dyadic, NumType};

/// The type of an expression: of what is computed at run time, and of what is known without a run.
#[derive(Drop)]
pub enum Ty {
    /// A real scalar fi of this type, with the attached fimath.
    Fi(NumType, Option<Fimath>),
    /// A real scalar constant.
    Number(Dyadic),
    /// A text.
    Words(Text),
    /// A fimath object.
    Math(Fimath),
    /// A numerictype object.
    Type(NumType),
    /// A class that no rule takes yet, or `:` as an argument.
    Other,
}

/// Whether two types are the same: the class, the type and the attached fimath, and of a constant or an object the value. No text is the
/// same as another one.
pub fn is_same(a: &Ty, b: &Ty) -> bool
    ensures { result ≡ types.same_ty (ty_view a.now) (ty_view b.now) }
{
    match a {
        Ty::Fi(t, m) => is_fi(*t, *m, b),
        Ty::Number(c) => is_number(*c, b),
        Ty::Words(_) => false,
        Ty::Math(m) => is_math(*m, b),
        Ty::Type(t) => is_type(*t, b),
        Ty::Other => false,
    }
}

// Whether a type is that of a fi with this type and attached fimath.
#[tactic(auto, unfolding(crate::specs::Types::same_ty))]
fn is_fi(t: NumType, m: Option<Fimath>, b: &Ty) -> bool
    ensures { result ≡ types.same_ty (types.FiTy (type_of t) m) (ty_view b.now) }
{
    match b {
        Ty::Fi(u, n) => is_same_type(t, *u) && is_same_attached(m, *n),
        Ty::Number(_) => false,
        Ty::Words(_) => false,
        Ty::Math(_) => false,
        Ty::Type(_) => false,
        Ty::Other => false,
    }
}

// Whether a type is that of this constant.
#[tactic(auto, unfolding(crate::specs::Types::same_ty))]
fn is_number(c: Dyadic, b: &Ty) -> bool
    ensures { result ≡ types.same_ty (scalar_number (exact_of c)) (ty_view b.now) }
{
    match b {
        Ty::Number(d) => is_same_constant(c, *d),
        Ty::Fi(_, _) => false,
        Ty::Words(_) => false,
        Ty::Math(_) => false,
        Ty::Type(_) => false,
        Ty::Other => false,
    }
}

// Whether a type is that of this fimath object.
#[tactic(auto, unfolding(crate::specs::Types::same_ty))]
fn is_math(m: Fimath, b: &Ty) -> bool
    ensures { result ≡ types.same_ty (types.MathTy m) (ty_view b.now) }
{
    match b {
        Ty::Math(n) => m.same(*n),
        Ty::Fi(_, _) => false,
        Ty::Number(_) => false,
        Ty::Words(_) => false,
        Ty::Type(_) => false,
        Ty::Other => false,
    }
}

// Whether a type is that of this numerictype object.
#[tactic(auto, unfolding(crate::specs::Types::same_ty))]
fn is_type(t: NumType, b: &Ty) -> bool
    ensures { result ≡ types.same_ty (types.TypeTy (type_of t)) (ty_view b.now) }
{
    match b {
        Ty::Type(u) => is_same_type(t, *u),
        Ty::Fi(_, _) => false,
        Ty::Number(_) => false,
        Ty::Words(_) => false,
        Ty::Math(_) => false,
        Ty::Other => false,
    }
}

// Whether two types have the same parts.
fn is_same_type(a: NumType, b: NumType) -> bool
    ensures { result ≡ types.same_type (type_of a) (type_of b) }
{
    a.signed() == b.signed() && a.word() == b.word() && a.fraction() == b.fraction()
}

// Whether the same fimath is attached, or none.
#[tactic(auto, unfolding(crate::specs::Types::same_attached))]
fn is_same_attached(a: Option<Fimath>, b: Option<Fimath>) -> bool
    ensures { result ≡ types.same_attached a b }
{
    match (a, b) {
        (None, None) => true,
        (Some(m), Some(n)) => m.same(n),
        (None, Some(_)) => false,
        (Some(_), None) => false,
    }
}

// Whether two constants are the same number.
fn is_same_constant(a: Dyadic, b: Dyadic) -> bool
    ensures { result ≡ types.same_exact (exact_of a) (exact_of b) }
{
    a.significand() == b.significand() && a.exponent() == b.exponent()
}
