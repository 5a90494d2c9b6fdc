//! The words of a function up to its opening brace.

ghost use Rattle.std.specs.Prelude.{◌≡◌, ◌+◌, ◌^◌, ◌<◌, ◌↔◌, ◌∷◌, ◌++◌, [], IsOk, IfOk, OnOk};
ghost use Rattle.c_grammar.specs.Sentence.{array_words, input_words, output_words, parameter_words};
ghost use Rattle.c_grammar.specs.declared.word.CSign.TheVariants as sign;
ghost use Rattle.c_grammar.specs.declared.word.CWordToken.TheVariants as word;

use c_grammar::{CKeyword, CSign, CWordToken};
use c_parts::stack::two;
use c_tree::{Array, Arrays, CArray};
use num_type::{Container, Memory};
use sqlite_items::Items;
use std::alloc::Global;

/// The number behind so many others. Want of memory exactly where it is no u32, which no list in memory comes to.
fn number(first: u32, k: usize) -> Result<u32, Memory>
    ensures value { IfOk result (λ n. n ≡ first + k) }
    ensures exact { IsOk result ↔ (first + k < 2 ^ 32) }
{
    if k <= (u32::MAX - first) as usize {
        Ok(first + k as u32)
    } else {
        Err(Memory)
    }
}

/// Writes an array of this number with its type and extent. Want of memory is the only refusal.
fn push_array(words: &mut Items<CWordToken>, at: CArray, array: &Array) -> Result<(), Memory>
    ensures { OnOk result (words.new ≡ words.old ++ array_words at array.now []) }
{
    words.push(CWordToken::Type(array.container))?;
    words.push(CWordToken::Array(at))?;
    words.push(CWordToken::Sign(CSign::OpenSquare))?;
    words.push(CWordToken::Number(array.extent as u64))?;
    words.push(CWordToken::Sign(CSign::CloseSquare))?;
    Ok(())
}

/// Writes an output behind a parameter. Want of memory is the only refusal.
fn push_output(
    words: &mut Items<CWordToken>,
    first: u32,
    k: usize,
    array: &Array,
) -> Result<(), Memory>
    ensures { OnOk result (words.new ≡ words.old ++ word.Sign sign.Comma ∷ array_words (CArray.Output (first + k)) array.now []) }
{
    let at = number(first, k)?;
    words.push(CWordToken::Sign(CSign::Comma))?;
    push_array(words, CArray::Output(at), array)
}

/// Writes the outputs behind a parameter, from a number on. Want of memory is the only refusal.
#[tactic(auto, using(crate::proofs::Headers::output_step))]
fn push_outputs(words: &mut Items<CWordToken>, first: u32, arrays: &[Array]) -> Result<(), Memory>
    ensures { OnOk result (words.new ≡ words.old ++ output_words first arrays.now []) }
{
    for (k, array) in arrays.iter().enumerate() {
        push_output(words, first, k, array)?;
    }
    Ok(())
}

/// Writes an input behind a parameter. Want of memory is the only refusal.
fn push_input(
    words: &mut Items<CWordToken>,
    first: u32,
    k: usize,
    array: &Array,
) -> Result<(), Memory>
    ensures { OnOk result (words.new ≡ words.old ++ word.Sign sign.Comma ∷ word.Keyword CKeyword.Const ∷ array_words (CArray.Input (first + k)) array.now []) }
{
    let at = number(first, k)?;
    words.push(CWordToken::Sign(CSign::Comma))?;
    words.push(CWordToken::Keyword(CKeyword::Const))?;
    push_array(words, CArray::Input(at), array)
}

/// Writes the inputs behind a parameter, from a number on. Want of memory is the only refusal.
#[tactic(auto, using(crate::proofs::Headers::input_step))]
fn push_inputs(words: &mut Items<CWordToken>, first: u32, arrays: &[Array]) -> Result<(), Memory>
    ensures { OnOk result (words.new ≡ words.old ++ input_words first arrays.now []) }
{
    for (k, array) in arrays.iter().enumerate() {
        push_input(words, first, k, array)?;
    }
    Ok(())
}

/// Writes the parameters where there is no input. Want of memory is the only refusal.
fn push_only_outputs(words: &mut Items<CWordToken>, outputs: &[Array]) -> Result<(), Memory>
    ensures { OnOk result (words.new ≡ words.old ++ parameter_words [] outputs.now []) }
{
    match outputs.split_first() {
        None => Ok(()),
        Some((array, more)) => {
            push_array(words, CArray::Output(0), array)?;
            push_outputs(words, 1, more)
        }
    }
}

/// Writes the first input, and the parameters behind it. Want of memory is the only refusal.
fn push_after_input(
    words: &mut Items<CWordToken>,
    array: &Array,
    more: &[Array],
    outputs: &[Array],
) -> Result<(), Memory>
    ensures { OnOk result (words.new ≡ words.old ++ parameter_words (array.now ∷ more.now) outputs.now []) }
{
    words.push(CWordToken::Keyword(CKeyword::Const))?;
    push_array(words, CArray::Input(0), array)?;
    push_inputs(words, 1, more)?;
    push_outputs(words, 0, outputs)
}

/// Writes the parameters, with a comma between two. Want of memory is the only refusal.
fn push_parameters(
    words: &mut Items<CWordToken>,
    inputs: &[Array],
    outputs: &[Array],
) -> Result<(), Memory>
    ensures { OnOk result (words.new ≡ words.old ++ parameter_words inputs.now outputs.now []) }
{
    match inputs.split_first() {
        None => push_only_outputs(words, outputs),
        Some((array, more)) => push_after_input(words, array, more, outputs),
    }
}

/// The words of a function with these parameters, up to its opening brace. Want of memory is the only refusal.
pub fn header(alloc: Global, arrays: &Arrays) -> Result<Items<CWordToken>, Memory>
    ensures { IfOk result (λ ws. ws ≡ word.Type Container.I32 ∷ word.Function ∷ word.Sign sign.Open ∷ parameter_words arrays.now.inputs arrays.now.outputs (word.Sign sign.Close ∷ word.Sign sign.OpenBrace ∷ [])) }
{
    let mut words = two(
        alloc,
        CWordToken::Type(Container::I32),
        CWordToken::Function,
    )?;
    words.push(CWordToken::Sign(CSign::Open))?;
    push_parameters(
        &mut words,
        arrays.inputs.as_slice(),
        arrays.outputs.as_slice(),
    )?;
    words.push(CWordToken::Sign(CSign::Close))?;
    words.push(CWordToken::Sign(CSign::OpenBrace))?;
    Ok(words)
}
