//! The program of a file from an entry.

ghost use Rattle.std.specs.Prelude.{◌≡◌, ◌<◌, ◌^◌, List, length, map, IfOk, Some, option_map};
ghost use Rattle.num_type.specs.Types.{NumericType};
ghost use Rattle.num_type.specs.View.{type_of};
ghost use Rattle.mat_token.specs.Lexeme.{lexemes_of};
ghost use Rattle.mat_ast.specs.View.{func_view, funcs_view};
ghost use Rattle.mat_ast.specs.Tree.{Fun};
ghost use Rattle.fi_eval.specs.Meaning.{function_named};
ghost use Rattle.c_tree.specs.View.{program_view};
ghost use Rattle.walk_scope.specs.Shown.{text_at};
ghost use Rattle.walk_scope.specs.Told.{Passes};
ghost use Rattle.scalar_walk.specs.Walk.{walked};
ghost use Rattle.scalar_program.specs.Lowered.{real_slots};
ghost use Rattle.scalar_program.specs.Right.{HasNames};
ghost use Rattle.scalar_program.specs.Correspondence.{IsProgramOf, form_of, real_form};
ghost use Rattle.scalar_walk.specs.View.{TellsTypes};

use crate::entry::lower_function;
use c_tree::CTree;
use fic_base::{Code, Place, Refusal};
use mat_ast::Func;
use mat_token::Token;
use num_type::{NumType, Stop};
use std::alloc::Global;
use walk_scope::{Scope, check_headers, refused, variables_of};

/// The program of a file, from a function at these types of its inputs; its outputs have the types that the walk tells. Refused exactly as
/// the definition of the walk tells: where the file has no such function, for a name of a header, for another number of types than of
/// inputs, or at the first node with a missing condition. Want of memory is the free answer.
pub fn lower_file(
    alloc: Global,
    bytes: &[u8],
    tokens: &[Token],
    funcs: &[Func],
    entry: &[u8],
    types: &[NumType],
) -> Result<CTree, Stop<Refusal>>
    ensures told { TellsTypes result (walked (text_at (lexemes_of bytes.now tokens.now)) (funcs_view funcs.now) entry.now (map type_of types.now)) }
    ensures right { IfOk result (λ t. (f : Fun) → function_named (funcs_view funcs.now) entry.now ≡ Some f → HasNames f → IsProgramOf (funcs_view funcs.now) entry.now (real_slots f.inputs (map type_of types.now)) (program_view t)) }
    ensures outputs { IfOk result (λ t. (us : List NumericType) → walked (text_at (lexemes_of bytes.now tokens.now)) (funcs_view funcs.now) entry.now (map type_of types.now) ≡ Passes us → map form_of (program_view t).interface.outputs ≡ map real_form us) }
    ensures few { IfOk result (λ t. length t.words < 2 ^ 32) }
{
    match find_entry(funcs, entry) {
        Some(f) => {
            let functions = check_headers(funcs, alloc)?;
            let variables = variables_of(f, alloc)?;
            let scope = Scope {
                variables: &variables,
                functions: &functions,
                bytes,
                tokens,
            };
            let program = lower_function(alloc, &scope, f, types)?;
            Ok(program)
        }
        None => Err(refused(alloc, Code::NoEntry, Place::START, entry)),
    }
}

// The first function of a name.
fn find_entry<'a>(funcs: &'a [Func], entry: &[u8]) -> Option<&'a Func>
    ensures { option_map (λ f. func_view f.now) result ≡ function_named (funcs_view funcs.now) entry.now }
{
    for f in funcs {
        if f.name.text.as_bytes() == entry {
            return Some(f);
        }
    }
    None
}
