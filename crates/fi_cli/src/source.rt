//! From the bytes of a source to the text of its program.

ghost use Rattle.std.specs.Prelude.{◌≡◌, IfOk, IfErr, map};
ghost use Rattle.num_type.specs.View.{type_of};
ghost use Rattle.mat_ast.specs.View.{funcs_view};
ghost use Rattle.mat_token.specs.Kept.{AreTokensOf};
ghost use Rattle.mat_token.specs.Outcome.{IsOutcome};
ghost use Rattle.mat_token.specs.Reads.{Gives};
ghost use Rattle.mat_parse.specs.Parsed.{Tree, IsParse};
ghost use Rattle.c_tree.specs.Layout.{layout};
ghost use Rattle.c_tree.specs.View.{program_view};
ghost use Rattle.fi_cli.specs.Source.{IsCompiled, IsSourceRefusal, num_types};
ghost use Rattle.fi_cli.specs.View.{RefusesAt, AreScalars};

use c_read::one_program;
use c_tree::{CTree, layout_is_a_text};
use c_write::write_tree;
use fic_base::Refusal;
use mat_ast::Func;
use mat_parse::parse_list;
use mat_token::{TokenList, tokens};
use num_type::{Memory, NumType, Stop};
use scalar_walk::lower_file;
use shape_rules::Declared;
use std::alloc::Global;

// The types of the elements. Want of memory is the only refusal.
fn num_types(alloc: Global, types: &[Declared]) -> Result<Vec<NumType>, Memory>
    ensures { IfOk result (λ v. map type_of v.items ≡ num_types types.now) }
{
    let mut nums = Vec::new(alloc);
    for declared in types {
        nums.push(declared.num)?;
    }
    Ok(nums)
}

// The text of a program. Want of memory is the only refusal.
fn text_of(alloc: Global, tree: &CTree) -> Result<Vec<u8>, Memory>
    ensures { IfOk result (λ text. text.items ≡ layout (program_view tree.now)) }
{
    let mut text = Vec::new(alloc);
    write_tree(alloc, tree, &mut text)?;
    Ok(text)
}

// The text of the program of an entry of these functions, which are the tree of these tokens.
fn compile_funcs(
    alloc: Global,
    source: &[u8],
    list: &TokenList,
    funcs: &[Func],
    entry: &str,
    types: &[Declared],
) -> Result<Vec<u8>, Stop<Refusal>>
    requires scalars { AreScalars types.now }
    requires tokens { IsOutcome source.now (Gives list.now) }
    requires kept { AreTokensOf source.now list.now }
    requires tree { IsParse source.now (Tree (funcs_view funcs.now)) }
    ensures text { IfOk result (λ text. IsCompiled source.now entry.now types.now text.items) }
    ensures refusal { IfErr result (λ stop. RefusesAt stop (IsSourceRefusal source.now entry.now types.now)) }
{
    layout_is_a_text();
    one_program();
    let nums = num_types(alloc, types)?;
    match lower_file(
        alloc,
        source,
        list.tokens(),
        funcs,
        entry.as_bytes(),
        nums.as_slice(),
    ) {
        Ok(tree) => Ok(text_of(alloc, &tree)?),
        Err(stop) => Err(stop),
    }
}

// The text of the program of an entry of the source with these tokens.
fn compile_tokens(
    alloc: Global,
    source: &[u8],
    list: &TokenList,
    entry: &str,
    types: &[Declared],
) -> Result<Vec<u8>, Stop<Refusal>>
    requires scalars { AreScalars types.now }
    requires tokens { IsOutcome source.now (Gives list.now) }
    requires kept { AreTokensOf source.now list.now }
    ensures text { IfOk result (λ text. IsCompiled source.now entry.now types.now text.items) }
    ensures refusal { IfErr result (λ stop. RefusesAt stop (IsSourceRefusal source.now entry.now types.now)) }
{
    match parse_list(alloc, source, list) {
        Ok(file) => compile_funcs(alloc, source, list, file.funcs(), entry, types),
        Err(stop) => Err(stop),
    }
}

/// The text of the program of an entry, at real scalars of these types. Refused where the source is.
pub fn compile_source(
    alloc: Global,
    source: &[u8],
    entry: &str,
    types: &[Declared],
) -> Result<Vec<u8>, Stop<Refusal>>
    requires { AreScalars types.now }
    ensures text { IfOk result (λ text. IsCompiled source.now entry.now types.now text.items) }
    ensures refusal { IfErr result (λ stop. RefusesAt stop (IsSourceRefusal source.now entry.now types.now)) }
{
    match tokens(alloc, source) {
        Ok(list) => compile_tokens(alloc, source, &list, entry, types),
        Err(stop) => Err(stop),
    }
}
