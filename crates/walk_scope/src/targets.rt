//! The variables of a function.

ghost use Rattle.std.specs.Prelude.{◌≡◌, ◌++◌, ◌∷◌, [], IfOk, OnOk};
ghost use Rattle.mat_ast.specs.View.{stmt_view, arms_view, block_view, func_view};
ghost use Rattle.fi_eval.specs.Meaning as meaning;
ghost use Rattle.walk_scope.specs.NameSets.{names_in};

use crate::name_set::NameSet;
use mat_ast::{Arm, Func, Ident, Stmt};
use num_type::Memory;
use std::alloc::Global;

/// The variables of a function: its inputs, its outputs, and the targets and loop variables of its body. Want of memory is the only
/// refusal.
pub fn variables_of(f: &Func, alloc: Global) -> Result<NameSet, Memory>
    ensures { IfOk result (λ v. names_in v ≡ meaning.variables_of (func_view f.now)) }
{
    let mut names = NameSet::new(alloc);
    put_names(f.inputs.as_slice(), alloc, &mut names)?;
    put_names(f.outputs.as_slice(), alloc, &mut names)?;
    put_targets(f.body.as_slice(), alloc, &mut names)?;
    Ok(names)
}

// Adds the names of a list.
fn put_names(idents: &[Ident], alloc: Global, names: &mut NameSet) -> Result<(), Memory>
    ensures { OnOk result (names_in names.new ≡ names_in names.old ++ meaning.names_of idents.now) }
{
    for ident in idents {
        put_name(ident, alloc, names)?;
    }
    Ok(())
}

fn put_name(ident: &Ident, alloc: Global, names: &mut NameSet) -> Result<(), Memory>
    ensures { OnOk result (names_in names.new ≡ names_in names.old ++ (ident.now.text ∷ [])) }
{
    names.insert(alloc, ident.text.as_bytes())
}

// Adds the targets and loop variables of a block.
#[cycle(targets)]
fn put_targets(body: &[Stmt], alloc: Global, names: &mut NameSet) -> Result<(), Memory>
    ensures { OnOk result (names_in names.new ≡ names_in names.old ++ meaning.targets_of_block (block_view body.now)) }
{
    for s in body {
        put_target(s, alloc, names)?;
    }
    Ok(())
}

// Adds the targets and loop variables of a statement.
#[cycle(targets)]
fn put_target(s: &Stmt, alloc: Global, names: &mut NameSet) -> Result<(), Memory>
    ensures { OnOk result (names_in names.new ≡ names_in names.old ++ meaning.targets_of (stmt_view s.now)) }
{
    match s {
        Stmt::Assign { name, .. } => put_name(name, alloc, names),
        Stmt::Store { name, .. } => put_name(name, alloc, names),
        Stmt::Multi { targets, .. } => put_names(targets.as_slice(), alloc, names),
        Stmt::If { arms, other, .. } => {
            put_arms(arms.as_slice(), alloc, names)?;
            match other {
                None => Ok(()),
                Some(block) => put_targets(block.as_slice(), alloc, names),
            }
        }
        Stmt::For { name, body, .. } => {
            put_name(name, alloc, names)?;
            put_targets(body.as_slice(), alloc, names)
        }
        Stmt::While { body, .. } => put_targets(body.as_slice(), alloc, names),
        Stmt::Break(_) => Ok(()),
        Stmt::Continue(_) => Ok(()),
    }
}

// Adds the targets and loop variables of the arms of an `if`.
#[cycle(targets)]
fn put_arms(arms: &[Arm], alloc: Global, names: &mut NameSet) -> Result<(), Memory>
    ensures { OnOk result (names_in names.new ≡ names_in names.old ++ meaning.targets_of_arms (arms_view arms.now)) }
{
    for arm in arms {
        put_arm(arm, alloc, names)?;
    }
    Ok(())
}

// Adds the targets and loop variables of an arm.
#[cycle(targets)]
fn put_arm(arm: &Arm, alloc: Global, names: &mut NameSet) -> Result<(), Memory>
    ensures { OnOk result (names_in names.new ≡ names_in names.old ++ meaning.targets_of_arms (arms_view (arm.now ∷ []))) }
{
    put_targets(arm.body.as_slice(), alloc, names)
}
