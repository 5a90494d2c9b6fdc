//! What stays the same over the body of a function.

ghost use Rattle.std.specs.Prelude.{◌≡◌, true};
ghost use Rattle.fi_meaning.specs.Expressions as meaning;
ghost use Rattle.walk_scope.specs.NameSets.{names_in};

use walk_scope::NameSet;

/// What stays the same over the body of a function.
#[derive(Clone, Copy)]
pub struct Scope<'a> {
    /// The names that are variables throughout it.
    pub variables: &'a NameSet,
    /// The names of the file's functions.
    pub functions: &'a NameSet,
    /// Whether a loop stands round it.
    pub in_loop: bool,
}

/// The same within a loop.
pub fn looped<'a>(scope: &Scope<'a>) -> Scope<'a>
    ensures { result ≡ record { variables = scope.now.variables; functions = scope.now.functions; in_loop = true } }
{
    Scope {
        variables: scope.variables,
        functions: scope.functions,
        in_loop: true,
    }
}

/// Whether a name is among those of a set.
#[tactic(auto, using(crate::proofs::Names::listed_by_either))]
pub fn is_listed(name: &[u8], names: &NameSet) -> bool
    ensures { result ≡ meaning.is_listed name.now (names_in names.now) }
{
    names.contains(name)
}
