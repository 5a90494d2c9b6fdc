//! Calls of built-in functions.

ghost use Rattle.std.specs.Prelude.{◌≡◌, ◌≤◌, ◌∷◌, ◌+◌, ◌*◌, ℕ, neg_ℤ, List, length, map, true, IfOk, OnOk, None, Some, if◌then◌else◌, IfSome};
ghost use Rattle.num_type.specs.View.{type_of};
ghost use Rattle.fi_rules.specs.Types as rule_types;
ghost use Rattle.fi_rules.specs.Types.{FiTy};
ghost use Rattle.fi_rules.specs.Calls as rule;
ghost use Rattle.fi_rules.specs.View.{ty_view, built_view, is_fi};
ghost use Rattle.fi_eval.specs.Operators.{math_of};
ghost use Rattle.fi_eval.specs.Calls.{taken_constant};
ghost use Rattle.num_type.specs.View.{exact_of};
ghost use Rattle.scalar_walk.specs.declared.operand.Spot as code_spot;
ghost use Rattle.fi_eval.specs.Meaning as meaning;
ghost use Rattle.lower_scalar.specs.Part.{Quantises, part_view, reach};
ghost use Rattle.walk_scope.specs.Rules as rules;
ghost use Rattle.walk_scope.specs.Scope as scoped;
ghost use Rattle.walk_scope.specs.View.{Tells, StopTells, scope_view};
ghost use Rattle.scalar_program.specs.Lowered.{read as read_spot, IsBuilt, IsCalled, IsMadeBy, IsTakenFrom, IsTurned, Turns};
ghost use Rattle.scalar_program.specs.Lowered as lowered;
ghost use Rattle.scalar_walk.specs.Walk as walk;
ghost use Rattle.scalar_walk.specs.View.{AreUnder, IsGranted, IsUnder, typed_view, turn_view, operand_view, spot_view, held_view, emitted_view, low_view};

use crate::emitted::Emitted;
use crate::operand::{Held, Operand, Spot, known, read};
use crate::results::{count, set_part};
use crate::turns::{Turn, governing, lower_turn};
use c_tree::CPart;
use fi_math::Fimath;
use fi_quant::quantise;
use fi_rules::{Built, BuiltIn, Ty, ask, build, built_in};
use fic_base::{Code, Place, Refusal};
use lower_scalar::lower_quantise;
use num_type::{Dyadic, Int, Memory, NumType, Stop};
use std::alloc::Global;
use walk_scope::{
    Scope, is_division, is_free, is_function, is_supported, is_unsupported, refused, rule_of_one,
};

/// A call of a name that is no variable, on arguments of these types that stand at these spots; `colon` tells whether one is `:`. Refused
/// exactly as the definition tells; want of memory is the free answer.
#[tactic(auto, using(walk_scope::proofs::Tell::err_tells), unfolding(crate::specs::Walk::name_called))]
pub fn lower_name_call(
    alloc: Global,
    scope: &Scope<'_>,
    at: Place,
    name: &[u8],
    colon: bool,
    types: &[Ty],
    spots: &[Spot],
    out: &mut Emitted,
) -> Result<Held, Stop<Refusal>>
    requires under { AreUnder spots.now (length out.old.words) }
    requires spots { length spots.now ≡ length types.now }
    ensures told { Tells result (typed_view out.new.nodes) (walk.name_called (scope_view scope.now) at name.now (walk.free_built_in (scope_view scope.now).context name.now) colon (map ty_view types.now) out.old.nodes) }
    ensures low { IfOk result (λ h. IsCalled (scope_view scope.now).context name.now (map ty_view types.now) (map spot_view spots.now) (emitted_view out.old) (low_view h out.new)) }
    ensures grows { OnOk result (length out.old.words ≤ length out.new.words) }
    ensures below { IfOk result (λ h. IsUnder h.spot out.new) }
{
    match free_built_in(scope, name) {
        None => Err(other_name(alloc, scope, at, name)),
        Some(function) => {
            if colon {
                Err(colon_refused(alloc, at, name, function, types))
            } else {
                let h = call_built_in(alloc, at, name, function, types, spots, out)?;
                Ok(h)
            }
        }
    }
}

// The built-in function of a name.
fn free_built_in(scope: &Scope<'_>, name: &[u8]) -> Option<BuiltIn>
    ensures is { result ≡ walk.free_built_in (scope_view scope.now).context name.now }
    ensures free { IfSome result (λ b. meaning.is_free (scope_view scope.now).context name.now ≡ true) }
    ensures named { IfSome result (λ b. rule.built_in_named name.now ≡ Some b) }
{
    if is_free(scope, name) {
        built_in(name)
    } else {
        None
    }
}

// The refusal of a name that is no variable and no built-in function that is supported so far.
#[tactic(auto, using(walk_scope::proofs::Tell::is_told), unfolding(walk_scope::specs::Told::choose))]
fn other_name(alloc: Global, scope: &Scope<'_>, at: Place, name: &[u8]) -> Stop<Refusal>
    ensures { StopTells {A = walk.Typed} result (scoped.other_name (scope_view scope.now) at name.now) }
{
    if is_function(scope, name) || is_supported(name) || is_unsupported(name) {
        refused(alloc, Code::Unsupported, at, name)
    } else if is_division(name) {
        refused(alloc, Code::Division, at, name)
    } else {
        refused(alloc, Code::UnknownName, at, name)
    }
}

// The refusal of `:` as an argument.
fn colon_refused(
    alloc: Global,
    at: Place,
    name: &[u8],
    function: BuiltIn,
    types: &[Ty],
) -> Stop<Refusal>
    ensures { StopTells result (walk.colon_refused at (rules.around_one name.now) function (map ty_view types.now)) }
{
    match rule_of_one(alloc, at, name, ask(function, types)) {
        Ok(_) => refused(alloc, Code::BadArgument, at, name),
        Err(stop) => stop,
    }
}

// A call of a built-in function.
#[tactic(auto, using(walk_scope::proofs::Tell::part_tells), unfolding(walk_scope::specs::Told::bind))]
fn call_built_in(
    alloc: Global,
    at: Place,
    name: &[u8],
    function: BuiltIn,
    types: &[Ty],
    spots: &[Spot],
    out: &mut Emitted,
) -> Result<Held, Stop<Refusal>>
    requires under { AreUnder spots.now (length out.old.words) }
    requires spots { length spots.now ≡ length types.now }
    ensures told { Tells result (typed_view out.new.nodes) (walk.built_in_typed at (rules.around_one name.now) function (map ty_view types.now) out.old.nodes) }
    ensures low { IfOk result (λ h. IsMadeBy function (map ty_view types.now) (map spot_view spots.now) (emitted_view out.old) (low_view h out.new)) }
    ensures grows { OnOk result (length out.old.words ≤ length out.new.words) }
    ensures below { IfOk result (λ h. IsUnder h.spot out.new) }
{
    let asked = rule_of_one(alloc, at, name, ask(function, types))?;
    count(alloc, at, out)?;
    let made = rule_of_one(alloc, at, name, build(asked))?;
    let h = make(alloc, made, types, spots, out)?;
    Ok(h)
}

// What a call gives, from its first argument.
#[tactic(auto, unfolding(scalar_program::specs::Lowered::IsBuilt, fi_rules::specs::Calls::built_type))]
fn make(
    alloc: Global,
    made: Built,
    types: &[Ty],
    spots: &[Spot],
    out: &mut Emitted,
) -> Result<Held, Memory>
    requires room { length out.old.words + 4097 ≤ 4097 * out.old.nodes }
    requires under { AreUnder spots.now (length out.old.words) }
    requires granted { IsGranted (built_view made) (map ty_view types.now) }
    requires spots { length spots.now ≡ length types.now }
    ensures ty { IfOk result (λ h. ty_view h.ty ≡ rule.built_type (built_view made) (map ty_view types.now)) }
    ensures nodes { out.new.nodes ≡ out.old.nodes }
    ensures low { IfOk result (λ h. IsBuilt (built_view made) (map ty_view types.now) (map spot_view spots.now) (emitted_view out.old) (low_view h out.new)) }
    ensures grows { OnOk result (length out.old.words ≤ length out.new.words) }
    ensures below { IfOk result (λ h. IsUnder h.spot out.new) }
{
    match made {
        Built::Type(num) => Ok(known(Ty::Type(num))),
        Built::Math(math) => Ok(known(Ty::Math(math))),
        Built::Taken(num, math) => take_first(alloc, num, math, types, spots, out),
        Built::Attached(math) => Ok(attach(math, types, spots)),
        Built::SignTaken => take_sign(alloc, types, spots, out),
    }
}

// The first argument with another fimath, or with none.
#[tactic(auto, unfolding(crate::specs::View::IsGranted, fi_rules::specs::Calls::built_type))]
fn attach(math: Option<Fimath>, types: &[Ty], spots: &[Spot]) -> Held
    requires granted { IsGranted (rule.Attached math) (map ty_view types.now) }
    requires spots { length spots.now ≡ length types.now }
    ensures ty { ty_view result.ty ≡ rule.built_type (rule.Attached math) (map ty_view types.now) }
    ensures low { (em : lowered.Emitted) → IsBuilt (rule.Attached math) (map ty_view types.now) (map spot_view spots.now) em (record { held = held_view result; emitted = em }) }
    ensures below { (n : ℕ) → AreUnder spots.now n → reach (read_spot (spot_view result.spot)) ≤ n }
{
    match (types.first(), spots.first()) {
        (Some(ty), Some(spot)) => attach_to(math, ty, *spot),
        _ => unreachable!(),
    }
}

// A fi with another fimath, or with none.
#[tactic(auto, unfolding(fi_rules::specs::Calls::with_math))]
fn attach_to(math: Option<Fimath>, ty: &Ty, spot: Spot) -> Held
    requires { is_fi (ty_view ty.now) ≡ true }
    ensures ty { ty_view result.ty ≡ rule.with_math math (ty_view ty.now) }
    ensures spot { result.spot ≡ spot }
{
    match ty {
        Ty::Fi(num, _) => Held {
            spot,
            ty: Ty::Fi(*num, math),
        },
        Ty::Number(_) => unreachable!(),
        Ty::Words(_) => unreachable!(),
        Ty::Math(_) => unreachable!(),
        Ty::Type(_) => unreachable!(),
        Ty::Other => unreachable!(),
    }
}

// The first argument without its sign.
#[tactic(auto, unfolding(scalar_program::specs::Lowered::IsBuilt, fi_rules::specs::Calls::built_type, crate::specs::View::IsGranted))]
fn take_sign(alloc: Global, types: &[Ty], spots: &[Spot], out: &mut Emitted) -> Result<Held, Memory>
    requires room { length out.old.words + 4097 ≤ 4097 * out.old.nodes }
    requires under { AreUnder spots.now (length out.old.words) }
    requires granted { IsGranted rule.SignTaken (map ty_view types.now) }
    requires spots { length spots.now ≡ length types.now }
    ensures ty { IfOk result (λ h. ty_view h.ty ≡ rule.built_type rule.SignTaken (map ty_view types.now)) }
    ensures nodes { out.new.nodes ≡ out.old.nodes }
    ensures low { IfOk result (λ h. IsBuilt rule.SignTaken (map ty_view types.now) (map spot_view spots.now) (emitted_view out.old) (low_view h out.new)) }
    ensures grows { OnOk result (length out.old.words ≤ length out.new.words) }
    ensures below { IfOk result (λ h. IsUnder h.spot out.new) }
{
    match (types.first(), spots.first()) {
        (Some(ty), Some(spot)) => {
            let h = take_sign_of(alloc, ty, *spot, out)?;
            Ok(h)
        }
        _ => unreachable!(),
    }
}

// A fi without its sign.
#[tactic(auto, unfolding(scalar_program::specs::Lowered::IsBuilt))]
fn take_sign_of(alloc: Global, ty: &Ty, spot: Spot, out: &mut Emitted) -> Result<Held, Memory>
    requires room { length out.old.words + 4097 ≤ 4097 * out.old.nodes }
    requires under { IsUnder spot out.old }
    requires fi { is_fi (ty_view ty.now) ≡ true }
    ensures ty { IfOk result (λ h. ty_view h.ty ≡ ty_view ty.now) }
    ensures nodes { out.new.nodes ≡ out.old.nodes }
    ensures low { IfOk result (λ h. (us : List rule_types.Ty) (ps : List lowered.Spot) → IsBuilt rule.SignTaken (ty_view ty.now ∷ us) (spot_view spot ∷ ps) (emitted_view out.old) (low_view h out.new)) }
    ensures grows { OnOk result (length out.old.words ≤ length out.new.words) }
    ensures below { IfOk result (λ h. IsUnder h.spot out.new) }
{
    match ty {
        Ty::Fi(num, math) => {
            let x = Operand { spot, num: *num };
            let h = lower_turn(alloc, Turn::Remove, *math, x, out)?;
            Ok(h)
        }
        Ty::Number(_) => unreachable!(),
        Ty::Words(_) => unreachable!(),
        Ty::Math(_) => unreachable!(),
        Ty::Type(_) => unreachable!(),
        Ty::Other => unreachable!(),
    }
}

// The first argument in a type.
#[tactic(auto, unfolding(scalar_program::specs::Lowered::IsBuilt, crate::specs::View::IsGranted))]
fn take_first(
    alloc: Global,
    num: NumType,
    math: Option<Fimath>,
    types: &[Ty],
    spots: &[Spot],
    out: &mut Emitted,
) -> Result<Held, Memory>
    requires room { length out.old.words + 4097 ≤ 4097 * out.old.nodes }
    requires under { AreUnder spots.now (length out.old.words) }
    requires granted { IsGranted (rule.Taken (type_of num) math) (map ty_view types.now) }
    requires spots { length spots.now ≡ length types.now }
    ensures ty { IfOk result (λ h. ty_view h.ty ≡ FiTy (type_of num) math) }
    ensures nodes { out.new.nodes ≡ out.old.nodes }
    ensures low { IfOk result (λ h. IsBuilt (rule.Taken (type_of num) math) (map ty_view types.now) (map spot_view spots.now) (emitted_view out.old) (low_view h out.new)) }
    ensures grows { OnOk result (length out.old.words ≤ length out.new.words) }
    ensures below { IfOk result (λ h. IsUnder h.spot out.new) }
{
    match (types.first(), spots.first()) {
        (Some(ty), Some(spot)) => {
            let h = take_from(alloc, num, math, ty, *spot, out)?;
            Ok(h)
        }
        _ => unreachable!(),
    }
}

// A fi by a part, or a constant in the text.
#[tactic(auto, unfolding(scalar_program::specs::Lowered::IsTakenFrom, fi_rules::specs::Calls::is_numeric))]
fn take_from(
    alloc: Global,
    num: NumType,
    math: Option<Fimath>,
    ty: &Ty,
    spot: Spot,
    out: &mut Emitted,
) -> Result<Held, Memory>
    requires room { length out.old.words + 4097 ≤ 4097 * out.old.nodes }
    requires under { IsUnder spot out.old }
    requires numeric { rule.is_numeric (ty_view ty.now) ≡ true }
    ensures ty { IfOk result (λ h. ty_view h.ty ≡ FiTy (type_of num) math) }
    ensures nodes { out.new.nodes ≡ out.old.nodes }
    ensures low { IfOk result (λ h. IsTakenFrom (type_of num) math (ty_view ty.now) (spot_view spot) (emitted_view out.old) (low_view h out.new)) }
    ensures grows { OnOk result (length out.old.words ≤ length out.new.words) }
    ensures below { IfOk result (λ h. IsUnder h.spot out.new) }
{
    match ty {
        Ty::Fi(from, _) => {
            let x = Operand { spot, num: *from };
            let part = quantised(alloc, num, math, x, out)?;
            let h = set_part(num, math, part, out)?;
            Ok(h)
        }
        Ty::Number(c) => Ok(Held {
            spot: Spot::Literal(num.signed(), constant_in(num, math, *c)),
            ty: Ty::Fi(num, math),
        }),
        Ty::Words(_) => unreachable!(),
        Ty::Math(_) => unreachable!(),
        Ty::Type(_) => unreachable!(),
        Ty::Other => unreachable!(),
    }
}

// The part that takes a fi to a type.
fn quantised(
    alloc: Global,
    num: NumType,
    math: Option<Fimath>,
    x: Operand,
    out: &Emitted,
) -> Result<CPart, Memory>
    requires { IsUnder x.spot out.now }
    ensures part { IfOk result (λ p. Quantises (math_of math).rounding (math_of math).overflow (type_of num) (type_of x.num) (read_spot (spot_view x.spot)) (length out.now.words) (part_view p)) }
    ensures few { IfOk result (λ p. length p.words ≤ 4096) }
{
    let fresh = out.fresh();
    let m = governing(math);
    let e = read(alloc, x.spot)?;
    let p = lower_quantise(alloc, num, m.rounding, m.overflow, x.num, e, fresh)?;
    Ok(p)
}

// A constant in a type: its stored integer.
fn constant_in(num: NumType, math: Option<Fimath>, c: Dyadic) -> Int
    ensures { result ≡ taken_constant (type_of num) math (exact_of c) }
{
    let m = governing(math);
    quantise(
        num,
        m.rounding,
        m.overflow,
        significand_of(c),
        fraction_of(c),
    )
}

// The significand of a constant.
fn significand_of(c: Dyadic) -> Int
    ensures { result ≡ c.m }
{
    Int::from_i128(wide(c.significand()))
}

// The same number in more bits.
fn wide(m: i64) -> i128
    ensures { result ≡ m }
{
    m as i128
}

// The fraction length at which a constant's significand is its stored integer.
fn fraction_of(c: Dyadic) -> i32
    ensures { result ≡ neg_ℤ c.e }
{
    -c.exponent()
}
