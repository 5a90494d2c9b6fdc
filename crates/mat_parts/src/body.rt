//! Statements, blocks and functions, with their depths.

ghost use Rattle.std.specs.Prelude.{◌≡◌, ◌+◌, ℕ, [], ◌∷◌, ◌++◌, IfOk, min, max};
ghost use Rattle.mat_ast.specs.Tree.{Assign, Store, Multi, IfOnly, IfElse, ForEach, WhileTrue, BreakOff, GoOn, NoArms, Done};
ghost use Rattle.mat_ast.specs.View.{expr_view, args_view, stmt_view, block_view, arms_view, funcs_view};
ghost use Rattle.mat_ast.specs.Depth.{sta_depth, arms_depth, block_depth, file_depth};
ghost use Rattle.mat_grammar.specs.Machine.{with_statement, with_arm, with_fun, header_of};

use crate::part::{Given, Part, deeper, greater};
use fic_base::Place;
use mat_ast::{Arm, Func, Ident, Stmt};
use sqlite_items::Items;
use std::alloc::{AllocError, Global};

/// A statement and its depth, at most 101.
#[derive(Drop)]
pub struct Step {
    /// The statement.
    pub stmt: Stmt,
    /// Its depth, at most 101.
    pub deep: u32,
    ghost sized: { deep ≡ min (sta_depth (stmt_view stmt)) 101 },
}

/// The statements of a block and their depth, at most 101.
#[derive(Drop)]
pub struct Steps {
    /// The statements.
    pub body: Items<Stmt>,
    /// Their depth, at most 101.
    pub deep: u32,
    ghost sized: { deep ≡ min (block_depth (block_view body)) 101 },
}

/// The arms of an `if` and their depth, at most 101.
#[derive(Drop)]
pub struct Cases {
    /// The arms.
    pub arms: Items<Arm>,
    /// Their depth, at most 101.
    pub deep: u32,
    ghost sized: { deep ≡ min (arms_depth (arms_view arms)) 101 },
}

/// Functions and their depth, at most 101.
#[derive(Drop)]
pub struct Funcs {
    /// The functions.
    pub funcs: Vec<Func>,
    /// Their depth, at most 101.
    pub deep: u32,
    ghost sized: { deep ≡ min (file_depth (funcs_view funcs.items)) 101 },
}

/// The front of a function.
#[derive(Drop)]
pub struct Header {
    /// The outputs.
    pub outputs: Items<Ident>,
    /// The name.
    pub name: Ident,
    /// The inputs.
    pub inputs: Items<Ident>,
}

/// An assignment.
pub fn assign(name: Ident, value: Part) -> Step
    ensures { stmt_view result.stmt ≡ Assign name (expr_view value.expr) }
{
    let deep = deeper(value.deep);
    let stmt = mat_ast::assign(name, value.expr);
    Step { stmt, deep }
}

/// An assignment to subscripts.
pub fn store(name: Ident, opens: Place, given: Given, value: Part) -> Step
    ensures { stmt_view result.stmt ≡ Store name opens (args_view given.args) (expr_view value.expr) }
{
    let deep = deeper(greater(given.deep, value.deep));
    let stmt = mat_ast::store(name, opens, given.args, value.expr);
    Step { stmt, deep }
}

/// An assignment of a call to a bracket of names.
pub fn multi(targets: Items<Ident>, call: Part) -> Step
    ensures { stmt_view result.stmt ≡ Multi targets (expr_view call.expr) }
{
    let deep = deeper(call.deep);
    let stmt = mat_ast::multi(targets, call.expr);
    Step { stmt, deep }
}

/// An `if` without `else`.
pub fn if_only(place: Place, cases: Cases) -> Step
    ensures { stmt_view result.stmt ≡ IfOnly place (arms_view cases.arms) }
{
    let deep = deeper(cases.deep);
    let stmt = mat_ast::if_arms(place, cases.arms);
    Step { stmt, deep }
}

/// An `if` with an `else`.
pub fn if_else(place: Place, cases: Cases, other: Steps) -> Step
    ensures { stmt_view result.stmt ≡ IfElse place (arms_view cases.arms) (block_view other.body) }
{
    let deep = deeper(greater(cases.deep, other.deep));
    let stmt = mat_ast::if_else(place, cases.arms, other.body);
    Step { stmt, deep }
}

/// A `for`.
pub fn for_each(place: Place, name: Ident, range: Part, body: Steps) -> Step
    ensures { stmt_view result.stmt ≡ ForEach place name (expr_view range.expr) (block_view body.body) }
{
    let deep = deeper(greater(range.deep, body.deep));
    let stmt = mat_ast::for_each(place, name, range.expr, body.body);
    Step { stmt, deep }
}

/// A `while`.
pub fn while_true(place: Place, condition: Part, body: Steps) -> Step
    ensures { stmt_view result.stmt ≡ WhileTrue place (expr_view condition.expr) (block_view body.body) }
{
    let deep = deeper(greater(condition.deep, body.deep));
    let stmt = mat_ast::while_true(place, condition.expr, body.body);
    Step { stmt, deep }
}

/// A `break`.
pub fn break_off(place: Place) -> Step
    ensures { stmt_view result.stmt ≡ BreakOff place }
{
    Step {
        stmt: mat_ast::break_off(place),
        deep: 1,
    }
}

/// A `continue`.
pub fn go_on(place: Place) -> Step
    ensures { stmt_view result.stmt ≡ GoOn place }
{
    Step {
        stmt: mat_ast::go_on(place),
        deep: 1,
    }
}

/// No statements.
pub fn no_steps(alloc: Global) -> Steps
    ensures { block_view result.body ≡ Done }
{
    Steps {
        body: Items::new(alloc),
        deep: 0,
    }
}

/// The statements with one more.
pub fn and_step(steps: Steps, step: Step) -> Result<Steps, AllocError>
    ensures { IfOk result (λ made. block_view made.body ≡ with_statement (block_view steps.body) (stmt_view step.stmt)) }
{
    let deep = greater(steps.deep, step.deep);
    let mut body = steps.body;
    body.push(step.stmt)?;
    Ok(Steps { body, deep })
}

/// No arms.
pub fn no_arms(alloc: Global) -> Cases
    ensures { arms_view result.arms ≡ NoArms }
{
    Cases {
        arms: Items::new(alloc),
        deep: 0,
    }
}

/// The arms with one more.
pub fn and_arm(cases: Cases, condition: Part, body: Steps) -> Result<Cases, AllocError>
    ensures { IfOk result (λ made. arms_view made.arms ≡ with_arm (arms_view cases.arms) (expr_view condition.expr) (block_view body.body)) }
{
    let deep = greater(cases.deep, greater(condition.deep, body.deep));
    let mut arms = cases.arms;
    arms.push(Arm {
        condition: condition.expr,
        body: body.body,
    })?;
    Ok(Cases { arms, deep })
}

/// No functions.
pub fn no_funcs(alloc: Global) -> Funcs
    ensures { funcs_view result.funcs.items ≡ [] }
{
    Funcs {
        funcs: Vec::new(alloc),
        deep: 0,
    }
}

/// The functions with one more.
pub fn and_func(funcs: Funcs, header: Header, body: Steps) -> Result<Funcs, AllocError>
    ensures { IfOk result (λ made. funcs_view made.funcs.items ≡ with_fun (funcs_view funcs.funcs.items) (header_of header.outputs header.name header.inputs) (block_view body.body)) }
{
    let deep = greater(funcs.deep, body.deep);
    let mut more = funcs.funcs;
    let Header {
        outputs,
        name,
        inputs,
    } = header;
    more.push(Func {
        name,
        inputs,
        outputs,
        body: body.body,
    })?;
    Ok(Funcs { funcs: more, deep })
}
