//! Writers of the texts of types.

ghost use Rattle.std.specs.Prelude.{◌≡◌, ◌++◌, OnOk, OnErr};
ghost use Rattle.num_type.specs.View.{type_of};
ghost use Rattle.shape_rules.specs.Declarations.{declared_text};
ghost use Rattle.shape_rules.specs.TypeText.{type_text, shape_text};
ghost use Rattle.shape_rules.specs.Shapes.{rows_of, columns_of};

use crate::declared::Declared;
use crate::shape::Shape;
use num_type::{Memory, NumType};

/// Appends the text of a type, always with its shape. Want of memory is its only refusal, and `out` is then as before.
pub fn write_type(declared: &Declared, out: &mut Vec<u8>) -> Result<(), Memory>
    ensures ok { OnOk result (out.new.items ≡ out.old.items ++ declared_text declared.now) }
    ensures err { OnErr result (out.new.items ≡ out.old.items) }
{
    let mut text = Vec::new(*out.allocator());
    put_type(declared, &mut text)?;
    out.extend_from_slice(text.as_slice())?;
    Ok(())
}

fn put_type(declared: &Declared, out: &mut Vec<u8>) -> Result<(), Memory>
    ensures { OnOk result (out.new.items ≡ out.old.items ++ declared_text declared.now) }
{
    put_num(declared.num, out)?;
    out.extend_from_slice(b":")?;
    put_shape(declared.shape, out)?;
    if declared.complex {
        out.extend_from_slice(b":c")?;
    }
    Ok(())
}

/// Appends the text of a numeric type, such as `s16.15`. Want of memory is its only refusal, and `out` is then as before.
pub fn write_num(num: NumType, out: &mut Vec<u8>) -> Result<(), Memory>
    ensures ok { OnOk result (out.new.items ≡ out.old.items ++ type_text (type_of num)) }
    ensures err { OnErr result (out.new.items ≡ out.old.items) }
{
    let mut text = Vec::new(*out.allocator());
    put_num(num, &mut text)?;
    out.extend_from_slice(text.as_slice())?;
    Ok(())
}

fn put_num(num: NumType, out: &mut Vec<u8>) -> Result<(), Memory>
    ensures { OnOk result (out.new.items ≡ out.old.items ++ type_text (type_of num)) }
{
    let alloc = *out.allocator();
    out.extend_from_slice(if num.signed() { b"s" } else { b"u" })?;
    out.extend_from_slice(num.word().to_string(alloc)?.as_bytes())?;
    out.extend_from_slice(b".")?;
    out.extend_from_slice(num.fraction().to_string(alloc)?.as_bytes())?;
    Ok(())
}

/// Appends the text of a shape, such as `1x4`. Want of memory is its only refusal, and `out` is then as before.
pub fn write_shape(shape: Shape, out: &mut Vec<u8>) -> Result<(), Memory>
    ensures ok { OnOk result (out.new.items ≡ out.old.items ++ shape_text (rows_of shape) (columns_of shape)) }
    ensures err { OnErr result (out.new.items ≡ out.old.items) }
{
    let mut text = Vec::new(*out.allocator());
    put_shape(shape, &mut text)?;
    out.extend_from_slice(text.as_slice())?;
    Ok(())
}

fn put_shape(shape: Shape, out: &mut Vec<u8>) -> Result<(), Memory>
    ensures { OnOk result (out.new.items ≡ out.old.items ++ shape_text (rows_of shape) (columns_of shape)) }
{
    let alloc = *out.allocator();
    out.extend_from_slice(shape.rows().to_string(alloc)?.as_bytes())?;
    out.extend_from_slice(b"x")?;
    out.extend_from_slice(shape.cols().to_string(alloc)?.as_bytes())?;
    Ok(())
}
