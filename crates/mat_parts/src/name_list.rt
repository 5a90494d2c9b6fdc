//! Names that are declared or assigned.

ghost use Rattle.std.specs.Prelude.{◌≡◌, ◌∷◌, [], ◌++◌, IfOk};
ghost use Rattle.mat_grammar.specs.Machine.{ident_at};

use fic_base::{Place, Text};
use mat_ast::Ident;
use sqlite_items::Items;
use std::alloc::{AllocError, Global};

/// A name that is declared or assigned. Want of memory is its only refusal.
pub fn ident(alloc: Global, place: Place, own: &[u8]) -> Result<Ident, AllocError>
    ensures { IfOk result (λ made. made ≡ ident_at place own.now) }
{
    let text = Text::from_bytes(alloc, own)?;
    Ok(Ident { text, place })
}

/// One name. Want of memory is its only refusal.
pub fn one_name(alloc: Global, place: Place, own: &[u8]) -> Result<Items<Ident>, AllocError>
    ensures { IfOk result (λ names. names ≡ ident_at place own.now ∷ []) }
{
    let name = ident(alloc, place, own)?;
    let mut names = Items::new(alloc);
    names.push(name)?;
    Ok(names)
}

/// The names with one more. Want of memory is its only refusal.
pub fn and_name(
    alloc: Global,
    names: Items<Ident>,
    place: Place,
    own: &[u8],
) -> Result<Items<Ident>, AllocError>
    ensures { IfOk result (λ made. made ≡ names ++ ident_at place own.now ∷ []) }
{
    let name = ident(alloc, place, own)?;
    let mut names = names;
    names.push(name)?;
    Ok(names)
}
