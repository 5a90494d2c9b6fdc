//! The names of headers.

ghost use Rattle.walk_scope.specs.Headers as headers;
ghost use Rattle.std.specs.Prelude.{◌≡◌, ℕ, List, [], ◌∷◌, map, reverse, IfOk};
ghost use Rattle.mat_ast.specs.View.{func_view, funcs_view};
ghost use Rattle.walk_scope.specs.Names.{is_listed};
ghost use Rattle.walk_scope.specs.NameSets.{names_in};
ghost use Rattle.walk_scope.specs.View.{Tells};

use crate::name_set::NameSet;
use crate::names::is_reserved;
use crate::scope::refused;
use fic_base::{Code, Refusal};
use mat_ast::{Func, Ident};
use num_type::Stop;
use std::alloc::Global;

/// The headers of a file: for each the outputs, the function's name and the inputs. Refused exactly as the definition tells; want of
/// memory is the free answer.
pub fn check_headers(funcs: &[Func], alloc: Global) -> Result<NameSet, Stop<Refusal>>
    ensures told { Tells result (λ s. reverse (map (λ f. f.name.text) funcs.now)) (headers.headers_checked (funcs_view funcs.now) []) }
    ensures names { IfOk result (λ s. names_in s ≡ map (λ f. f.name.text) funcs.now) }
{
    let mut seen = NameSet::new(alloc);
    for k in 0..funcs.len() {
        let f = &funcs[k];
        check_header(f, &seen, alloc)?;
        seen.insert(alloc, f.name.text.as_bytes())?;
    }
    Ok(seen)
}

// A header behind those of these names.
fn check_header(f: &Func, before: &NameSet, alloc: Global) -> Result<(), Stop<Refusal>>
    ensures told { Tells result (λ u. f.now.name.text ∷ reverse (names_in before.now)) (headers.headers_checked (func_view f.now ∷ []) (reverse (names_in before.now))) }
{
    check_names(f.outputs.as_slice(), alloc)?;
    let repeated = before.contains(f.name.text.as_bytes());
    check_name(alloc, &f.name, repeated)?;
    check_names(f.inputs.as_slice(), alloc)?;
    Ok(())
}

// The names of one list.
fn check_names(names: &[Ident], alloc: Global) -> Result<(), Stop<Refusal>>
    ensures told { Tells result (λ u. reverse (map (λ n. n.text) names.now)) (headers.names_checked names.now []) }
{
    let mut seen = NameSet::new(alloc);
    for k in 0..names.len() {
        let name = &names[k];
        let repeated = seen.contains(name.text.as_bytes());
        check_name(alloc, name, repeated)?;
        seen.insert(alloc, name.text.as_bytes())?;
    }
    Ok(())
}

// A name, which may stand among those before it.
#[tactic(auto, using(crate::proofs::Tell::stop_tells), unfolding(crate::specs::Told::choose))]
fn check_name(alloc: Global, name: &Ident, repeated: bool) -> Result<(), Stop<Refusal>>
    ensures told { (seen : List (List ℕ)) → repeated ≡ is_listed name.now.text seen → Tells result (λ u. name.now.text ∷ seen) (headers.names_checked (name.now ∷ []) seen) }
{
    let text = name.text.as_bytes();
    if is_reserved(text) {
        Err(refused(alloc, Code::Unsupported, name.place, text))
    } else if repeated {
        Err(refused(alloc, Code::BadArgument, name.place, text))
    } else {
        Ok(())
    }
}
