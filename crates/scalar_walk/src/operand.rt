//! Where values of a program stand, and how they are read.

ghost use Rattle.std.specs.Prelude.{◌≡◌, ◌%◌, ◌^◌, IfOk};
ghost use Rattle.c_tree.specs.View.{expr_view};
ghost use Rattle.fi_rules.specs.View.{ty_view};
ghost use Rattle.fi_rules.specs.declared.ty.Ty.TheVariants as code_ty;
ghost use Rattle.lower_scalar.specs.Shapes;
ghost use Rattle.scalar_program.specs.Lowered;
ghost use Rattle.scalar_walk.specs.View.{held_view, spot_view};

use c_tree::{CArray, CExpr, COp};
use fi_rules::Ty;
use fic_base::Text;
use lower_scalar::constant;
use num_type::{Int, Memory, NumType};
use std::alloc::Global;

/// Where a value stands.
#[derive(Clone, Copy)]
pub enum Spot {
    /// The one element of an input array, by its number.
    Input(u32),
    /// A variable, by its number.
    Variable(u32),
    /// The text itself: a stored integer of this signedness.
    Literal(bool, Int),
}

/// A stored integer's type, and where it stands.
#[derive(Clone, Copy)]
pub struct Operand {
    pub spot: Spot,
    pub num: NumType,
}

/// A value's type, and where it stands if it is a fi.
#[derive(Drop)]
pub struct Held {
    pub spot: Spot,
    pub ty: Ty,
}

/// The same value once more. Want of memory is the only refusal.
pub fn copy(alloc: Global, held: &Held) -> Result<Held, Memory>
    ensures { IfOk result (λ h. held_view h ≡ held_view held.now) }
{
    let ty = copy_type(alloc, &held.ty)?;
    Ok(Held {
        spot: held.spot,
        ty,
    })
}

fn copy_type(alloc: Global, ty: &Ty) -> Result<Ty, Memory>
    ensures { IfOk result (λ t. ty_view t ≡ ty_view ty.now) }
{
    match ty {
        Ty::Fi(num, math) => Ok(Ty::Fi(*num, *math)),
        Ty::Number(c) => Ok(Ty::Number(*c)),
        Ty::Words(text) => {
            let text = Text::from_bytes(alloc, text.as_bytes())?;
            Ok(Ty::Words(text))
        }
        Ty::Math(math) => Ok(Ty::Math(*math)),
        Ty::Type(num) => Ok(Ty::Type(*num)),
        Ty::Other => Ok(Ty::Other),
    }
}

/// Where what is known without a run stands.
pub fn nowhere() -> Spot
    ensures { spot_view result ≡ Lowered.nowhere }
{
    Spot::Literal(true, Int::from_i128(0))
}

/// A value that is known without a run.
pub fn known(ty: Ty) -> Held
    ensures ty { result.ty ≡ ty }
    ensures spot { spot_view result.spot ≡ Lowered.nowhere }
{
    Held {
        spot: nowhere(),
        ty,
    }
}

/// A read of a value. Want of memory is the only refusal.
pub fn read(alloc: Global, spot: Spot) -> Result<CExpr, Memory>
    ensures { IfOk result (λ e. expr_view e ≡ Lowered.read (spot_view spot)) }
{
    match spot {
        Spot::Input(k) => c_tree::element(alloc, CArray::Input(k), c_tree::signed(0)),
        Spot::Variable(k) => Ok(c_tree::variable(k)),
        Spot::Literal(signed, z) => literal(alloc, signed, z),
    }
}

// A stored integer in the text.
#[tactic(auto, unfolding(scalar_program::specs::Lowered::literal_exp))]
fn literal(alloc: Global, signed: bool, z: Int) -> Result<CExpr, Memory>
    ensures { IfOk result (λ e. expr_view e ≡ Lowered.literal_exp signed z) }
{
    let size = z.magnitude();
    if !signed {
        Ok(constant(false, low_word(size)))
    } else if !z.is_negative() {
        Ok(constant(true, low_word(size)))
    } else if size < 1 << 63 {
        let e = c_tree::negation(alloc, c_tree::signed(low_word(size)))?;
        Ok(e)
    } else {
        let e = below_minus(alloc, low_word(size - 1))?;
        Ok(e)
    }
}

// The low bits of a size.
fn low_word(size: u128) -> u64
    ensures { result ≡ size % 2 ^ 64 }
{
    (size % (1 << 64)) as u64
}

// `-n - 1`.
fn below_minus(alloc: Global, n: u64) -> Result<CExpr, Memory>
    ensures { IfOk result (λ e. expr_view e ≡ Shapes.below_minus n) }
{
    let minus = c_tree::negation(alloc, c_tree::signed(n))?;
    let e = c_tree::binary(alloc, COp::Sub, minus, c_tree::signed(1))?;
    Ok(e)
}

/// `:` as an argument.
pub fn other() -> Held
    ensures ty { result.ty ≡ code_ty.Other }
    ensures spot { spot_view result.spot ≡ Lowered.nowhere }
{
    Held {
        spot: nowhere(),
        ty: Ty::Other,
    }
}
