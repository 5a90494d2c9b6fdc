//! Leaves of expressions: literals, texts, names and `end`; and calls behind their arguments.

ghost use Rattle.std.specs.Prelude.{◌≡◌, ◌&&◌, ◌||◌, [], not, map, bytes_eq, codes, IfOk};
ghost use Rattle.num_type.specs.View.{exact_of};
ghost use Rattle.mat_ast.specs.View.{arg_view, expr_view};
ghost use Rattle.const_rules.specs.LiteralValues.{literal_of};
ghost use Rattle.walk_scope.specs.NameSets.{names_in};
ghost use Rattle.fi_rules.specs.Value as val;
ghost use Rattle.fi_eval.specs.Outcome.{Gives, bind, choose, or_wrong};
ghost use Rattle.fi_values.specs.Numbers.{whole_value};
ghost use Rattle.fi_meaning.specs.Calls as calls;
ghost use Rattle.fi_meaning.specs.Environment.{variable};
ghost use Rattle.fi_meaning.specs.Expressions as meaning;
ghost use Rattle.eval_value.specs.Tells.{Tells};
ghost use Rattle.eval_value.specs.View.{row_view, value_view};
ghost use Rattle.eval_call.specs.View.{argument_view};
ghost use Rattle.eval_source.specs.Halts.{halted};
ghost use Rattle.eval_source.specs.Items.{word_at};
ghost use Rattle.eval_source.specs.View.{context_of, env_view};

use crate::caller::Caller;
use crate::scope::{Scope, is_listed};
use crate::variables::Variables;
use const_eval::literal;
use eval_call::{Argument, call_built_in};
use eval_value::{Halt, Value, make_imaginary, make_number, make_whole};
use fic_base::{Place, Refusal, Text};
use mat_ast::{Arg, Expr, ExprKind};
use num_type::{Dyadic, Memory, Stop};
use sqlite_items::Boxed;
use std::alloc::Global;

/// The constant of a literal; imaginary ones are complex. Wrong at the place where it is none.
#[tactic(auto, using(eval_call::proofs::Follow::after_ok, eval_call::proofs::Follow::after_err), unfolding(fi_eval::specs::Outcome::bind))]
pub fn number_value(
    alloc: Global,
    at: Place,
    text: &[u8],
    imaginary: bool,
) -> Result<Boxed<Value>, Halt>
    ensures { Tells result value_view (bind (or_wrong at (literal_of text.now)) (λ c. Gives (meaning.literal imaginary c))) }
{
    let c = constant_of(alloc, at, text)?;
    literal_value(alloc, imaginary, c)
}

// The constant of a real literal.
fn constant_of(alloc: Global, at: Place, text: &[u8]) -> Result<Dyadic, Halt>
    ensures { Tells result exact_of (or_wrong at (literal_of text.now)) }
{
    match literal(alloc, text, at) {
        Ok(c) => Ok(c),
        Err(stop) => Err(halt_of(stop, at)),
    }
}

// What a refusal of a literal is to an evaluation.
fn halt_of(stop: Stop<Refusal>, at: Place) -> Halt
    ensures { result ≡ halted stop at }
{
    match stop {
        Stop::Memory => Halt::Memory,
        Stop::Refused(_) => Halt::Wrong(at),
    }
}

// A constant, real or imaginary, as a value.
#[tactic(auto, unfolding(fi_meaning::specs::Expressions::literal))]
fn literal_value(alloc: Global, imaginary: bool, c: Dyadic) -> Result<Boxed<Value>, Halt>
    ensures { Tells result value_view (Gives (meaning.literal imaginary (exact_of c))) }
{
    if imaginary {
        let v = make_imaginary(alloc, c)?;
        let kept = Boxed::new(alloc, v)?;
        Ok(kept)
    } else {
        let v = make_number(alloc, c)?;
        let kept = Boxed::new(alloc, v)?;
        Ok(kept)
    }
}

/// A text as a value.
pub fn text_value(alloc: Global, text: &[u8]) -> Result<Boxed<Value>, Halt>
    ensures { Tells result value_view (Gives (val.Words text.now)) }
{
    let copy = Text::from_bytes(alloc, text)?;
    let kept = Boxed::new(alloc, Value::Words(copy))?;
    Ok(kept)
}

/// What `end` means; wrong at its place where it means nothing.
#[tactic(auto, unfolding(fi_eval::specs::Outcome::bind, fi_eval::specs::Outcome::or_wrong))]
pub fn end_value(alloc: Global, at: Place, ends: Option<u32>) -> Result<Boxed<Value>, Halt>
    ensures { Tells result value_view (bind (or_wrong at ends) (λ n. Gives (whole_value n))) }
{
    match ends {
        None => Err(Halt::Wrong(at)),
        Some(n) => {
            let v = make_whole(alloc, n)?;
            let kept = Boxed::new(alloc, v)?;
            Ok(kept)
        }
    }
}

/// The value of a variable; wrong at the place where it has none.
pub fn variable_value(
    alloc: Global,
    names: &Variables,
    at: Place,
    name: &[u8],
) -> Result<Value, Halt>
    ensures { Tells result value_view (variable (env_view names.now) at name.now) }
{
    match names.get(name) {
        None => Err(Halt::Wrong(at)),
        Some(v) => {
            let copy = v.copied(alloc)?;
            Ok(copy)
        }
    }
}

// The same on the heap.
fn boxed_variable(
    alloc: Global,
    names: &Variables,
    at: Place,
    name: &[u8],
) -> Result<Boxed<Value>, Halt>
    ensures { Tells result value_view (variable (env_view names.now) at name.now) }
{
    let v = variable_value(alloc, names, at, name)?;
    let copy = Boxed::new(alloc, v)?;
    Ok(copy)
}

// The values of arguments.
fn values_of(alloc: Global, args: &[Argument]) -> Result<Vec<Value>, Memory>
    ensures { IfOk result (λ v. row_view v ≡ calls.values_of (map argument_view args.now)) }
{
    let mut values = Vec::new(alloc);
    for arg in args {
        let v = arg.value.copied(alloc)?;
        values.push(v)?;
    }
    Ok(values)
}

/// The values of arguments. Want of memory is the only refusal.
pub fn values_in(alloc: Global, args: Vec<Argument>) -> Result<Vec<Value>, Memory>
    ensures { IfOk result (λ v. row_view v ≡ calls.values_of (map argument_view args.items)) }
{
    values_of(alloc, args.as_slice())
}

// The first output of a call.
#[tactic(auto, unfolding(fi_meaning::specs::Expressions::only))]
fn first_of(alloc: Global, at: Place, values: Vec<Value>) -> Result<Boxed<Value>, Halt>
    ensures { Tells result value_view (meaning.only at (row_view values)) }
{
    match values.into_iter().next() {
        None => Err(Halt::Wrong(at)),
        Some(v) => {
            let kept = Boxed::new(alloc, v)?;
            Ok(kept)
        }
    }
}

// A call of a built-in function on arguments, which are let go.
fn built_in_called(
    alloc: Global,
    at: Place,
    name: &[u8],
    args: Vec<Argument>,
) -> Result<Boxed<Value>, Halt>
    ensures { Tells result value_view (calls.called_name at name.now (map argument_view args.items)) }
{
    let v = call_built_in(alloc, at, name, args.as_slice())?;
    let result = Boxed::new(alloc, v)?;
    Ok(result)
}

/// A call of a function of the file, or else of a built-in one.
#[tactic(auto, using(crate::proofs::Follow::chosen, crate::proofs::Follow::not_chosen))]
pub fn called<C: Caller>(
    alloc: Global,
    scope: &Scope<'_>,
    caller: &C,
    at: Place,
    name: &[u8],
    args: Vec<Argument>,
) -> Result<Boxed<Value>, Halt>
    ensures { Tells result value_view (meaning.called (context_of scope.now (C.called caller.now)) at name.now (map argument_view args.items)) }
{
    if is_listed(name, scope.functions) {
        called_function(alloc, caller, at, name, args)
    } else {
        built_in_called(alloc, at, name, args)
    }
}

// A call of a function of the file for one output.
#[tactic(auto, using(eval_call::proofs::Follow::after_ok, eval_call::proofs::Follow::after_err))]
fn called_function<C: Caller>(
    alloc: Global,
    caller: &C,
    at: Place,
    name: &[u8],
    args: Vec<Argument>,
) -> Result<Boxed<Value>, Halt>
    ensures { Tells result value_view (bind (C.called caller.now at name.now (calls.values_of (map argument_view args.items)) 1) (meaning.only at)) }
{
    let values = values_in(alloc, args)?;
    let outputs = caller.call(alloc, at, name, values, 1)?;
    first_of(alloc, at, outputs)
}

/// A name alone: a variable, or a call without arguments.
#[tactic(auto, using(crate::proofs::Follow::chosen, crate::proofs::Follow::not_chosen))]
pub fn name_value<C: Caller>(
    alloc: Global,
    scope: &Scope<'_>,
    caller: &C,
    names: &Variables,
    at: Place,
    name: &[u8],
) -> Result<Boxed<Value>, Halt>
    ensures { Tells result value_view (choose (meaning.is_listed name.now (names_in scope.now.variables.now)) (variable (env_view names.now) at name.now) (meaning.called (context_of scope.now (C.called caller.now)) at name.now [])) }
{
    if is_listed(name, scope.variables) {
        boxed_variable(alloc, names, at, name)
    } else {
        called(alloc, scope, caller, at, name, Vec::new(alloc))
    }
}

/// Whether an argument is the word `true` or `false` itself, and no variable and no function of the file.
#[tactic(auto, unfolding(crate::specs::Items::word_at))]
pub fn is_word_item(arg: &Arg, scope: &Scope<'_>) -> bool
    ensures { result ≡ word_at (names_in scope.now.variables.now) (names_in scope.now.functions.now) (arg_view arg.now) }
{
    match arg {
        Arg::All => false,
        Arg::Item(e) => is_word(e, scope),
    }
}

// Whether an expression is such a word.
#[tactic(auto, unfolding(fi_meaning::specs::Expressions::is_word))]
fn is_word(e: &Expr, scope: &Scope<'_>) -> bool
    ensures { result ≡ meaning.is_word (names_in scope.now.variables.now) (names_in scope.now.functions.now) (expr_view e.now) }
{
    match &e.kind {
        ExprKind::Name(name) => is_free_word(name.as_bytes(), scope),
        _ => false,
    }
}

// Whether a name is such a word.
fn is_free_word(name: &[u8], scope: &Scope<'_>) -> bool
    ensures { result ≡ ((bytes_eq name.now (codes "true") || bytes_eq name.now (codes "false")) && not (meaning.is_listed name.now (names_in scope.now.variables.now) || meaning.is_listed name.now (names_in scope.now.functions.now))) }
{
    is_truth_word(name) && !is_known(name, scope)
}

fn is_truth_word(name: &[u8]) -> bool
    ensures { result ≡ (bytes_eq name.now (codes "true") || bytes_eq name.now (codes "false")) }
{
    name == b"true".as_slice() || name == b"false".as_slice()
}

fn is_known(name: &[u8], scope: &Scope<'_>) -> bool
    ensures { result ≡ (meaning.is_listed name.now (names_in scope.now.variables.now) || meaning.is_listed name.now (names_in scope.now.functions.now)) }
{
    is_listed(name, scope.variables) || is_listed(name, scope.functions)
}
