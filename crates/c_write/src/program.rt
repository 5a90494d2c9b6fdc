//! The text of a whole program.

ghost use Rattle.std.specs.Prelude.{◌≡◌, ◌++◌, ◌-◌, ◌+◌, OnOk, OnErr, flat_map, codes, decimal, true, [], ◌∷◌};
ghost use Rattle.c_tree.specs.Names.{arrays_of};
ghost use Rattle.c_tree.specs.Texts;
ghost use Rattle.c_tree.specs.Texts.{function_name, var_text};
ghost use Rattle.c_tree.specs.declared.tree.CWord.TheVariants.{I64};
ghost use Rattle.c_tree.specs.View.{program_view};
ghost use Rattle.c_tree.specs.Whole.{program_of};
ghost use Rattle.c_tree.specs.Layout;
ghost use Rattle.c_tree.specs.Layout.{layout, function_text, header_text, function_front, parameters_text, declared_text, comma_unless, local_text, zero_text, start_line, words_text, counters_text, declarations_text};

use crate::interface::{put_include, put_interface};
use crate::pieces::{letter_of, put, put_constant, put_number, put_var, put_word};
use crate::stmts::put_block;
use c_tree::{Array, Arrays, CProgram, CTree, CWord, CounterKind, container_text};
use num_type::Memory;
use std::alloc::Global;

/// The layout text of a program at the end of `out`. Want of memory is the only refusal, and leaves `out` as it was.
pub fn write_c(alloc: Global, p: &CProgram, out: &mut Vec<u8>) -> Result<(), Memory>
    ensures text { OnOk result (out.new.items ≡ out.old.items ++ layout (program_of p.now)) }
    ensures unchanged { OnErr result (out.new.items ≡ out.old.items) }
{
    write_tree(alloc, p.tree(), out)
}

/// The layout text of a tree at the end of `out`. Want of memory is the only refusal, and leaves `out` as it was.
pub fn write_tree(alloc: Global, tree: &CTree, out: &mut Vec<u8>) -> Result<(), Memory>
    ensures text { OnOk result (out.new.items ≡ out.old.items ++ layout (program_view tree.now)) }
    ensures unchanged { OnErr result (out.new.items ≡ out.old.items) }
{
    let mut text = Vec::new(alloc);
    put_tree(alloc, tree, &mut text)?;
    out.extend_from_slice(&text)?;
    Ok(())
}

fn put_tree(alloc: Global, tree: &CTree, out: &mut Vec<u8>) -> Result<(), Memory>
    ensures { OnOk result (out.new.items ≡ out.old.items ++ layout (program_view tree.now)) }
{
    let all = Arrays::of(alloc, tree)?;
    put_include(out)?;
    put_interface(out, &tree.interface)?;
    put_function(out, tree, &all)
}

fn put_function(out: &mut Vec<u8>, tree: &CTree, all: &Arrays) -> Result<(), Memory>
    requires { all.now ≡ arrays_of (program_view tree.now) }
    ensures { OnOk result (out.new.items ≡ out.old.items ++ function_text (program_view tree.now)) }
{
    put_header(out, tree, all)?;
    put_declarations(out, tree, all)?;
    put_block(out, all, 1, tree.body.as_slice())?;
    put(out, b"}\n")
}

fn put_header(out: &mut Vec<u8>, tree: &CTree, all: &Arrays) -> Result<(), Memory>
    requires { all.now ≡ arrays_of (program_view tree.now) }
    ensures { OnOk result (out.new.items ≡ out.old.items ++ header_text (program_view tree.now)) }
{
    put_front(out)?;
    put(out, b"fic_")?;
    put(out, tree.interface.entry.as_bytes())?;
    put(out, b"(")?;
    put_parameters(out, all)?;
    put(out, b") {\n")
}

#[tactic(auto, unfolding(c_tree::specs::Layout::function_front))]
fn put_front(out: &mut Vec<u8>) -> Result<(), Memory>
    ensures { OnOk result (out.new.items ≡ out.old.items ++ function_front) }
{
    put(out, b"int32_t ")
}

fn put_parameters(out: &mut Vec<u8>, all: &Arrays) -> Result<(), Memory>
    ensures { OnOk result (out.new.items ≡ out.old.items ++ parameters_text true (codes "const ") all.now.inputs ++ parameters_text (Layout.is_none all.now.inputs) [] all.now.outputs) }
{
    put_some(out, true, b"const ", all.inputs.as_slice())?;
    put_some(
        out,
        is_none(all.inputs.as_slice()),
        b"",
        all.outputs.as_slice(),
    )
}

fn is_none(arrays: &[Array]) -> bool
    ensures { result ≡ Layout.is_none arrays.now }
{
    match arrays {
        [] => true,
        [_, ..] => false,
    }
}

fn put_some(out: &mut Vec<u8>, first: bool, word: &[u8], arrays: &[Array]) -> Result<(), Memory>
    ensures { OnOk result (out.new.items ≡ out.old.items ++ parameters_text first word.now arrays.now) }
{
    let mut first = first;
    for a in arrays {
        if !first {
            put(out, b", ")?;
        }
        put(out, word)?;
        put_declared(out, a)?;
        first = false;
    }
    Ok(())
}

fn put_declared(out: &mut Vec<u8>, a: &Array) -> Result<(), Memory>
    ensures { OnOk result (out.new.items ≡ out.old.items ++ declared_text a.now) }
{
    put(out, container_text(a.container))?;
    put(out, b" ")?;
    put(out, a.name.as_bytes())?;
    put(out, b"[")?;
    put_number(out, a.extent as u64)?;
    put(out, b"]")
}

fn put_declarations(out: &mut Vec<u8>, tree: &CTree, all: &Arrays) -> Result<(), Memory>
    requires { all.now ≡ arrays_of (program_view tree.now) }
    ensures { OnOk result (out.new.items ≡ out.old.items ++ declarations_text (program_view tree.now)) }
{
    put_locals(out, all.locals.as_slice())?;
    put_words(out, tree.words.as_slice())?;
    put_counters(out, CounterKind::Group, tree.groups)?;
    put_counters(out, CounterKind::Barrier, tree.barriers)?;
    put_counters(out, CounterKind::Source, tree.sources)?;
    put_counters(out, CounterKind::Turn, tree.turns)
}

fn put_locals(out: &mut Vec<u8>, arrays: &[Array]) -> Result<(), Memory>
    ensures { OnOk result (out.new.items ≡ out.old.items ++ flat_map local_text arrays.now) }
{
    for a in arrays {
        put(out, b"  ")?;
        put_declared(out, a)?;
        put(out, b" = {0};\n")?;
    }
    Ok(())
}

fn put_words(out: &mut Vec<u8>, words: &[CWord]) -> Result<(), Memory>
    ensures { OnOk result (out.new.items ≡ out.old.items ++ words_text 0 words.now) }
{
    for (k, word) in words.iter().enumerate() {
        put_var_line(out, *word, k as u64)?;
    }
    Ok(())
}

fn put_var_line(out: &mut Vec<u8>, word: CWord, number: u64) -> Result<(), Memory>
    ensures { OnOk result (out.new.items ≡ out.old.items ++ start_line word (var_text number)) }
{
    put(out, b"  ")?;
    put_word(out, word)?;
    put(out, b" ")?;
    put_var(out, number)?;
    put_zero(out, word)
}

#[tactic(auto, unfolding(c_tree::specs::Layout::zero_text))]
fn put_zero(out: &mut Vec<u8>, word: CWord) -> Result<(), Memory>
    ensures { OnOk result (out.new.items ≡ out.old.items ++ zero_text word) }
{
    put(out, b" = ")?;
    put_constant(out, word, 0)?;
    put(out, b";\n")
}

fn put_counters(out: &mut Vec<u8>, kind: CounterKind, count: u32) -> Result<(), Memory>
    ensures { OnOk result (out.new.items ≡ out.old.items ++ counters_text (Texts.letter_of kind) 0 count) }
{
    for number in 0..count {
        put_counter_line(out, letter_of(kind), number)?;
    }
    Ok(())
}

fn put_counter_line(out: &mut Vec<u8>, letter: &[u8], number: u32) -> Result<(), Memory>
    ensures { OnOk result (out.new.items ≡ out.old.items ++ start_line I64 (letter.now ++ decimal number)) }
{
    put(out, b"  int64_t ")?;
    put(out, letter)?;
    put_number(out, number as u64)?;
    put_zero(out, CWord::I64)
}
