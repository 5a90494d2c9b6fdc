//! Single tokens and blanks at the end of a text.

ghost use Rattle.std.specs.Prelude.{◌≡◌, ◌++◌, OnOk, decimal};
ghost use Rattle.c_tree.specs.Names;
ghost use Rattle.c_tree.specs.Texts;
ghost use Rattle.c_tree.specs.Texts.{op_text, rel_text, word_text, var_text, counter_text, array_text, read_text, store_text};
ghost use Rattle.c_tree.specs.Layout.{constant_text, indent};

use c_tree::{Arrays, CArray, COp, CRel, CWord, Counter, CounterKind, container_text};
use num_type::{Container, Memory};

/// These bytes at the end.
pub fn put(out: &mut Vec<u8>, bytes: &[u8]) -> Result<(), Memory>
    ensures { OnOk result (out.new.items ≡ out.old.items ++ bytes.now) }
{
    out.extend_from_slice(bytes)?;
    Ok(())
}

/// A number in decimal at the end.
pub fn put_number(out: &mut Vec<u8>, n: u64) -> Result<(), Memory>
    ensures { OnOk result (out.new.items ≡ out.old.items ++ decimal n) }
{
    let text = n.to_string(*out.allocator())?;
    out.extend_from_slice(text.as_bytes())?;
    Ok(())
}

/// A binary operator.
pub fn put_op(out: &mut Vec<u8>, op: COp) -> Result<(), Memory>
    ensures { OnOk result (out.new.items ≡ out.old.items ++ op_text op) }
{
    match op {
        COp::Add => put(out, b"+"),
        COp::Sub => put(out, b"-"),
        COp::Mul => put(out, b"*"),
        COp::And => put(out, b"&"),
        COp::Or => put(out, b"|"),
        COp::Xor => put(out, b"^"),
        COp::Shl => put(out, b"<<"),
        COp::Shr => put(out, b">>"),
    }
}

/// A relation.
pub fn put_rel(out: &mut Vec<u8>, rel: CRel) -> Result<(), Memory>
    ensures { OnOk result (out.new.items ≡ out.old.items ++ rel_text rel) }
{
    match rel {
        CRel::Eq => put(out, b"=="),
        CRel::Ne => put(out, b"!="),
        CRel::Lt => put(out, b"<"),
        CRel::Le => put(out, b"<="),
        CRel::Gt => put(out, b">"),
        CRel::Ge => put(out, b">="),
    }
}

/// The type of a variable or an expression.
pub fn put_word(out: &mut Vec<u8>, word: CWord) -> Result<(), Memory>
    ensures { OnOk result (out.new.items ≡ out.old.items ++ word_text word) }
{
    match word {
        CWord::I64 => put(out, b"int64_t"),
        CWord::U64 => put(out, b"uint64_t"),
    }
}

/// A constant of a type.
pub fn put_constant(out: &mut Vec<u8>, word: CWord, n: u64) -> Result<(), Memory>
    ensures { OnOk result (out.new.items ≡ out.old.items ++ constant_text word n) }
{
    match word {
        CWord::I64 => put(out, b"INT64_C")?,
        CWord::U64 => put(out, b"UINT64_C")?,
    }
    put(out, b"(")?;
    put_number(out, n)?;
    put(out, b")")
}

/// A variable.
pub fn put_var(out: &mut Vec<u8>, number: u64) -> Result<(), Memory>
    ensures { OnOk result (out.new.items ≡ out.old.items ++ var_text number) }
{
    put(out, b"v")?;
    put_number(out, number)
}

/// The letter of a kind of counters.
pub fn letter_of(kind: CounterKind) -> &'static [u8]
    ensures { result.now ≡ Texts.letter_of kind }
{
    match kind {
        CounterKind::Group => b"g",
        CounterKind::Barrier => b"b",
        CounterKind::Source => b"k",
        CounterKind::Turn => b"w",
    }
}

/// A counter.
pub fn put_counter(out: &mut Vec<u8>, counter: Counter) -> Result<(), Memory>
    ensures { OnOk result (out.new.items ≡ out.old.items ++ counter_text counter) }
{
    put(out, letter_of(counter.kind))?;
    put_number(out, counter.number as u64)
}

/// The name of an array, and nothing where there is none.
pub fn put_array(out: &mut Vec<u8>, all: &Arrays, array: CArray) -> Result<(), Memory>
    ensures { OnOk result (out.new.items ≡ out.old.items ++ array_text all.now array) }
{
    match all.find(array) {
        Some(a) => put(out, a.name.as_bytes()),
        None => Ok(()),
    }
}

/// The type of an element that is read, and nothing where there is no such array.
pub fn put_read(out: &mut Vec<u8>, all: &Arrays, array: CArray) -> Result<(), Memory>
    ensures { OnOk result (out.new.items ≡ out.old.items ++ read_text all.now array) }
{
    match all.find(array) {
        Some(a) => put(out, word_of(a.container)),
        None => Ok(()),
    }
}

fn word_of(c: Container) -> &'static [u8]
    ensures { result.now ≡ word_text (Names.word_of c) }
{
    match c {
        Container::I8 | Container::I16 | Container::I32 | Container::I64 => b"int64_t",
        Container::U8 | Container::U16 | Container::U32 | Container::U64 => b"uint64_t",
    }
}

/// The type of an element that is stored, and nothing where there is no such array.
pub fn put_store(out: &mut Vec<u8>, all: &Arrays, array: CArray) -> Result<(), Memory>
    ensures { OnOk result (out.new.items ≡ out.old.items ++ store_text all.now array) }
{
    match all.find(array) {
        Some(a) => put(out, container_text(a.container)),
        None => Ok(()),
    }
}

/// Two blanks for each brace that is open.
pub fn put_indent(out: &mut Vec<u8>, depth: usize) -> Result<(), Memory>
    ensures { OnOk result (out.new.items ≡ out.old.items ++ indent depth) }
{
    for _ in 0..depth {
        put(out, b"  ")?;
    }
    Ok(())
}
