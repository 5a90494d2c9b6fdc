//! Pieces of JSON texts.

ghost use Rattle.std.specs.Prelude.{◌≡◌, ◌++◌, ◌≤◌, map, flat_map, codes, length, OnOk, vec_items};
ghost use Rattle.std.specs.Fmt.{decimal, signed_decimal};
ghost use Rattle.case_io.specs.ResultLines.{joined, array_text, parts_text, part_count, value_text};

use num_type::{Int, Memory, write_decimal};

/// Appends bytes. Want of memory is the only refusal.
pub fn put_bytes(bytes: &[u8], out: &mut Vec<u8>) -> Result<(), Memory>
    ensures { OnOk result (out.new.items ≡ out.old.items ++ bytes.now) }
{
    out.extend_from_slice(bytes)?;
    Ok(())
}

/// Appends the decimal of a number. Want of memory is the only refusal.
pub fn put_number(n: u64, out: &mut Vec<u8>) -> Result<(), Memory>
    ensures { OnOk result (out.new.items ≡ out.old.items ++ decimal n) }
{
    let alloc = *out.allocator();
    let digits = n.to_string(alloc)?;
    put_bytes(digits.as_bytes(), out)
}

// Appends a comma and a number.
fn put_next(z: Int, out: &mut Vec<u8>) -> Result<(), Memory>
    ensures { OnOk result (out.new.items ≡ out.old.items ++ (codes "," ++ signed_decimal z)) }
{
    put_bytes(b",", out)?;
    write_decimal(z, out)
}

// Appends numbers, each behind a comma.
fn put_more(numbers: &[Int], out: &mut Vec<u8>) -> Result<(), Memory>
    ensures { OnOk result (out.new.items ≡ out.old.items ++ flat_map (λ next. codes "," ++ next) (map signed_decimal numbers.now)) }
{
    for z in numbers {
        put_next(*z, out)?;
    }
    Ok(())
}

// Appends numbers with a comma between two.
fn put_numbers(numbers: &[Int], out: &mut Vec<u8>) -> Result<(), Memory>
    ensures { OnOk result (out.new.items ≡ out.old.items ++ joined (map signed_decimal numbers.now)) }
{
    match numbers.split_first() {
        None => Ok(()),
        Some((first, more)) => {
            write_decimal(*first, out)?;
            put_more(more, out)
        }
    }
}

// Appends a list of numbers.
fn put_array(numbers: &[Int], out: &mut Vec<u8>) -> Result<(), Memory>
    ensures { OnOk result (out.new.items ≡ out.old.items ++ array_text numbers.now) }
{
    put_bytes(b"[", out)?;
    put_numbers(numbers, out)?;
    put_bytes(b"]", out)
}

// Appends the parts of complex numbers.
fn put_parts(re: &[Int], im: &[Int], out: &mut Vec<u8>) -> Result<(), Memory>
    ensures { OnOk result (out.new.items ≡ out.old.items ++ parts_text re.now im.now) }
{
    put_bytes(b"{\"im\":", out)?;
    put_array(im, out)?;
    put_bytes(b",\"re\":", out)?;
    put_array(re, out)?;
    put_bytes(b"}", out)
}

/// Appends the text of a value, real or complex, from the lists of its arrays. Want of memory is the only refusal.
pub fn put_value(is_complex: bool, lists: &[Vec<Int>], out: &mut Vec<u8>) -> Result<(), Memory>
    requires { part_count is_complex ≤ length lists.now }
    ensures { OnOk result (out.new.items ≡ out.old.items ++ value_text is_complex (map vec_items lists.now)) }
{
    if is_complex {
        put_parts(&lists[0], &lists[1], out)
    } else {
        put_array(&lists[0], out)
    }
}
