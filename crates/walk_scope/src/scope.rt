//! What stays the same while a function is walked, and the refusals of its nodes.

ghost use Rattle.walk_scope.specs.Scope as scoped;
ghost use Rattle.fi_rules.specs.Texts as texts;
ghost use Rattle.std.specs.Prelude.{◌≡◌, IfOk, decimal, take, drop, None, Some};
ghost use Rattle.std.specs.Fmt.{signed_decimal};
ghost use Rattle.fic_base.specs.declared.code.Code.TheVariants as code;
ghost use Rattle.mat_token.specs.Lexeme.{lexemes_of};
ghost use Rattle.walk_scope.specs.Names as names;
ghost use Rattle.fi_eval.specs.Meaning as meaning;
ghost use Rattle.walk_scope.specs.Shown;
ghost use Rattle.walk_scope.specs.View.{scope_view, IsStop};

use crate::name_set::NameSet;
use fic_base::{Code, Place, Refusal, Text};
use mat_token::{Kind, Token};
use num_type::{Memory, Stop};
use std::alloc::Global;

/// What stays the same while a function is walked.
#[derive(Clone, Copy)]
pub struct Scope<'a> {
    /// The names that are variables throughout the function.
    pub variables: &'a NameSet,
    /// The names of the file's functions.
    pub functions: &'a NameSet,
    /// The source.
    pub bytes: &'a [u8],
    /// The source's tokens.
    pub tokens: &'a [Token],
}

/// Whether a name is a variable throughout the function.
pub fn is_variable(scope: &Scope<'_>, name: &[u8]) -> bool
    ensures { result ≡ names.is_listed name.now (scope_view scope.now).context.variables }
{
    scope.variables.contains(name)
}

/// Whether a name is that of a function of the file.
pub fn is_function(scope: &Scope<'_>, name: &[u8]) -> bool
    ensures { result ≡ names.is_listed name.now (scope_view scope.now).context.functions }
{
    scope.functions.contains(name)
}

/// Whether a name called may be that of a built-in function: a variable or a function of the file goes before it.
pub fn is_free(scope: &Scope<'_>, name: &[u8]) -> bool
    ensures { result ≡ meaning.is_free (scope_view scope.now).context name.now }
{
    !(is_variable(scope, name) || is_function(scope, name))
}

// Whether tokens of a kind have a text.
fn has_text(kind: Kind) -> bool
    ensures { result ≡ Shown.has_text kind }
{
    match kind {
        Kind::Separator => false,
        _ => true,
    }
}

/// The text of the token at a place, and nothing where no token starts there.
pub fn text_at<'a>(bytes: &'a [u8], tokens: &[Token], at: Place) -> &'a [u8]
    ensures { result.now ≡ Shown.text_at (lexemes_of bytes.now tokens.now) at }
{
    for t in tokens {
        if t.place.offset == at.offset && has_text(t.kind) {
            return part(bytes, t.place.offset as usize, t.len as usize);
        }
    }
    &[]
}

// So many bytes from an offset, or fewer at the end.
fn part(bytes: &[u8], offset: usize, len: usize) -> &[u8]
    ensures { result.now ≡ take len (drop offset bytes.now) }
{
    let from = offset.min(bytes.len());
    let rest = bytes.split_at(from).1;
    rest.split_at(len.min(rest.len())).0
}

/// A refusal, or want of memory for the text that it shows.
pub fn refused(alloc: Global, code: Code, place: Place, shown: &[u8]) -> Stop<Refusal>
    ensures { IsStop result code place shown.now }
{
    match Text::from_bytes(alloc, shown) {
        Ok(shown) => Stop::Refused(Refusal { code, place, shown }),
        Err(_) => Stop::Memory,
    }
}

/// The refusal of a kind that isn't supported yet, with the token at its place.
pub fn unbuilt(alloc: Global, scope: &Scope<'_>, at: Place) -> Stop<Refusal>
    ensures { IsStop result code.Unsupported at ((scope_view scope.now).shown at) }
{
    refused(
        alloc,
        Code::Unsupported,
        at,
        text_at(scope.bytes, scope.tokens, at),
    )
}

/// The refusal at the limit of nodes.
pub fn too_many_nodes(alloc: Global, at: Place) -> Stop<Refusal>
    ensures { IsStop result code.Limit at (decimal 200000) }
{
    match 200_000u32.to_string(alloc) {
        Ok(text) => refused(alloc, Code::Limit, at, text.as_bytes()),
        Err(_) => Stop::Memory,
    }
}

/// The refusal of a type that is too wide.
pub fn too_wide(alloc: Global, at: Place, word: u32) -> Stop<Refusal>
    ensures { IsStop result code.TooWide at (decimal word) }
{
    match word.to_string(alloc) {
        Ok(text) => refused(alloc, Code::TooWide, at, text.as_bytes()),
        Err(_) => Stop::Memory,
    }
}

/// The refusal of a type whose fraction length is out of the limits.
pub fn fraction_out(alloc: Global, at: Place, fraction: i32) -> Stop<Refusal>
    ensures { IsStop result code.FractionOut at (signed_decimal fraction) }
{
    match fraction.to_string(alloc) {
        Ok(text) => refused(alloc, Code::FractionOut, at, text.as_bytes()),
        Err(_) => Stop::Memory,
    }
}

/// The refusal of another number of types or arguments than is wanted.
pub fn arg_count(alloc: Global, at: Place, have: usize, want: usize) -> Stop<Refusal>
    ensures { IsStop result code.ArgCount at (texts.counts_text have want) }
{
    match counts_text(alloc, have, want) {
        Ok(text) => refused(alloc, Code::ArgCount, at, text.as_slice()),
        Err(_) => Stop::Memory,
    }
}

fn counts_text(alloc: Global, have: usize, want: usize) -> Result<Vec<u8>, Memory>
    ensures { IfOk result (λ v. v.items ≡ texts.counts_text have want) }
{
    let have = have.to_string(alloc)?;
    let want = want.to_string(alloc)?;
    let mut text = Vec::new(alloc);
    text.extend_from_slice(have.as_bytes())?;
    text.extend_from_slice(b" for ")?;
    text.extend_from_slice(want.as_bytes())?;
    Ok(text)
}
