//! Texts of types of expressions.

ghost use Rattle.std.specs.Prelude.{◌≡◌, ◌++◌, codes, OnOk};
ghost use Rattle.num_type.specs.View.{type_of};
ghost use Rattle.shape_rules.specs.TypeText.{type_text, shape_text};
ghost use Rattle.fi_rules.specs.Texts.{attached_text, ty_text};
ghost use Rattle.fi_rules.specs.View.{ty_view};

use crate::maths::put_math;
use fi_math::Fimath;
use fi_rules::Ty;
use num_type::{Memory, NumType};
use shape_rules::{Shape, write_num, write_shape};

/// Appends the text of a type; a class that no rule takes yet has none. Want of memory is the only refusal.
#[tactic(auto, unfolding(fi_rules::specs::Texts::ty_text))]
pub fn put_type(t: &Ty, out: &mut Vec<u8>) -> Result<(), Memory>
    ensures { OnOk result (out.new.items ≡ out.old.items ++ ty_text (ty_view t.now)) }
{
    match t {
        Ty::Fi(num, math) => put_fi(*num, math, out)?,
        Ty::Number(_) => put_number(out)?,
        Ty::Words(_) => out.extend_from_slice(b"text")?,
        Ty::Math(_) => out.extend_from_slice(b"fimath")?,
        Ty::Type(_) => out.extend_from_slice(b"numerictype")?,
        Ty::Other => {}
    }
    Ok(())
}

// A scalar fi with its attached fimath.
fn put_fi(num: NumType, math: &Option<Fimath>, out: &mut Vec<u8>) -> Result<(), Memory>
    ensures { OnOk result (out.new.items ≡ out.old.items ++ (type_text (type_of num) ++ codes ":" ++ shape_text 1 1 ++ attached_text math.now)) }
{
    write_num(num, out)?;
    out.extend_from_slice(b":")?;
    put_scalar(out)?;
    put_attached(math, out)?;
    Ok(())
}

// A scalar constant.
fn put_number(out: &mut Vec<u8>) -> Result<(), Memory>
    ensures { OnOk result (out.new.items ≡ out.old.items ++ (codes "number:" ++ shape_text 1 1)) }
{
    out.extend_from_slice(b"number:")?;
    put_scalar(out)?;
    Ok(())
}

// The shape of one element.
fn put_scalar(out: &mut Vec<u8>) -> Result<(), Memory>
    ensures { OnOk result (out.new.items ≡ out.old.items ++ shape_text 1 1) }
{
    let r = write_shape(Shape::scalar(), out)?;
    Ok(r)
}

// A colon and the fimath, where one is attached.
#[tactic(auto, unfolding(fi_rules::specs::Texts::attached_text))]
fn put_attached(math: &Option<Fimath>, out: &mut Vec<u8>) -> Result<(), Memory>
    ensures { OnOk result (out.new.items ≡ out.old.items ++ attached_text math.now) }
{
    match math {
        None => Ok(()),
        Some(m) => {
            out.extend_from_slice(b":")?;
            let r = put_math(m, out)?;
            Ok(r)
        }
    }
}
