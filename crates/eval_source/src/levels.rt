//! Calls of the functions of a file, one level below another, and entries of a file.

ghost use Rattle.std.specs.Prelude.{◌≡◌, ◌||◌, ℕ, suc, map, nat_lt, length, IfOk};
ghost use Rattle.mat_ast.specs.View.{func_view, funcs_view};
ghost use Rattle.fi_eval.specs.Meaning as tree;
ghost use Rattle.fi_eval.specs.Outcome.{bind, or_wrong};
ghost use Rattle.fi_meaning.specs.Expressions.{is_listed};
ghost use Rattle.fi_meaning.specs.Meaning as functions;
ghost use Rattle.eval_value.specs.Tells.{Tells};
ghost use Rattle.eval_value.specs.View.{row_view, value_view};
ghost use Rattle.eval_source.specs.Outcomes.{outcome_view};
ghost use Rattle.eval_source.specs.View.{env_view};

use crate::caller::Caller;
use crate::functions::{
    entry_outputs, first_outputs, function_named, function_outputs, is_among, run_on, with_name,
};
use crate::outcome::{Outcome, outcome_of};
use crate::variables::Variables;
use eval_value::{Halt, Value};
use fic_base::{Place, Text};
use mat_ast::{File, Func};
use num_type::Memory;
use std::alloc::Global;
use std::marker::PhantomData;

/// How many calls may stand inside each other from here on.
pub trait Level {
    /// So many.
    ghost depth: { ℕ };

    /// A call at a place of a function of a file by its name, on these values, asked for so many outputs, while the bodies of the `running` functions
    /// are being run. Each `while` makes at most so many turns.
    fn call(
        alloc: Global,
        funcs: &[Func],
        turns: u64,
        running: &[Text],
        at: Place,
        name: &[u8],
        values: Vec<Value>,
        wanted: usize,
    ) -> Result<Vec<Value>, Halt>
        ensures { Tells result row_view (functions.file_call (funcs_view funcs.now) turns depth running.now at name.now (row_view values) wanted) };
}

/// No call.
pub struct Lowest;

impl Level for Lowest {
    ghost depth = { 0 };

    fn call(
        _alloc: Global,
        _funcs: &[Func],
        _turns: u64,
        _running: &[Text],
        at: Place,
        _name: &[u8],
        _values: Vec<Value>,
        _wanted: usize,
    ) -> Result<Vec<Value>, Halt> {
        Err(Halt::Wrong(at))
    }
}

/// One more call than below.
pub struct Above<L> {
    below: PhantomData<L>,
}

impl<L: Level> Level for Above<L> {
    ghost depth = { suc L.depth };

    fn call(
        alloc: Global,
        funcs: &[Func],
        turns: u64,
        running: &[Text],
        at: Place,
        name: &[u8],
        values: Vec<Value>,
        wanted: usize,
    ) -> Result<Vec<Value>, Halt> {
        match function_named(funcs, name) {
            None => Err(Halt::Wrong(at)),
            Some(f) => {
                if is_refused(f, name, running, wanted) {
                    return Err(Halt::Wrong(at));
                }
                let inner = with_name(alloc, name, running)?;
                let caller: Calls<'_, L> = Calls {
                    funcs,
                    turns,
                    running: inner.as_slice(),
                    level: PhantomData,
                };
                let outputs = function_outputs(f, alloc, funcs, &caller, turns, at, values)?;
                first_outputs(alloc, at, outputs, wanted)
            }
        }
    }
}

// Whether a function's own body is being run, or more outputs are wanted than it has.
fn is_refused(f: &Func, name: &[u8], running: &[Text], wanted: usize) -> bool
    ensures { result ≡ (is_listed name.now running.now || nat_lt (length f.now.outputs) wanted) }
{
    is_among(name, running) || f.outputs.as_slice().len() < wanted
}

// Calls within the body of a function.
#[derive(Drop)]
struct Calls<'a, L> {
    // The functions of the file.
    funcs: &'a [Func],
    // The most turns of each `while`.
    turns: u64,
    // The names of the functions whose bodies are being run.
    running: &'a [Text],
    level: PhantomData<L>,
}

impl<L: Level> Caller for Calls<'_, L> {
    ghost called = { λ s. functions.file_call (funcs_view s.funcs.now) s.turns L.depth s.running.now };

    fn call(
        &self,
        alloc: Global,
        at: Place,
        name: &[u8],
        values: Vec<Value>,
        wanted: usize,
    ) -> Result<Vec<Value>, Halt> {
        L::call(
            alloc,
            self.funcs,
            self.turns,
            self.running,
            at,
            name,
            values,
            wanted,
        )
    }
}

type Four<L> = Above<Above<Above<Above<L>>>>;

// At most 16 calls inside each other.
type Sixteen = Four<Four<Four<Four<Lowest>>>>;

// What an entry does on these values.
fn entered(
    alloc: Global,
    funcs: &[Func],
    f: &Func,
    values: Vec<Value>,
    turns: u64,
) -> Result<Vec<Value>, Halt>
    ensures { Tells result row_view (functions.entered (funcs_view funcs.now) (func_view f.now) (row_view values) turns) }
{
    let running = with_name(alloc, f.name.text.as_bytes(), &[])?;
    let caller: Calls<'_, Sixteen> = Calls {
        funcs,
        turns,
        running: running.as_slice(),
        level: PhantomData,
    };
    let names = run_on(f, alloc, funcs, &caller, turns, f.name.place, values)?;
    outputs_at(f, alloc, names)
}

// The values of an entry's outputs.
fn outputs_at(f: &Func, alloc: Global, names: Variables) -> Result<Vec<Value>, Halt>
    ensures { Tells result row_view (functions.entry_outputs f.now.outputs (env_view names)) }
{
    entry_outputs(alloc, f.outputs.as_slice(), &names)
}

// What a file does from an entry.
fn evaluated(
    alloc: Global,
    funcs: &[Func],
    entry: &[u8],
    values: Vec<Value>,
    turns: u64,
) -> Result<Vec<Value>, Halt>
    ensures { Tells result row_view (functions.evaluated (funcs_view funcs.now) entry.now (row_view values) turns) }
{
    match function_named(funcs, entry) {
        None => Err(Halt::Wrong(Place::START)),
        Some(f) => entered(alloc, funcs, f, values, turns),
    }
}

// Copies of values.
fn copies(alloc: Global, values: &[Value]) -> Result<Vec<Value>, Memory>
    ensures { IfOk result (λ v. row_view v ≡ map value_view values.now) }
{
    let mut out = Vec::new(alloc);
    for value in values {
        let v = value.copied(alloc)?;
        out.push(v)?;
    }
    Ok(out)
}

/// What a file does from an entry on these inputs, where each `while` makes at most so many turns. Want of memory is the only refusal.
pub fn evaluate(
    alloc: Global,
    file: &File,
    entry: &str,
    inputs: &[Value],
    turns: u64,
) -> Result<Outcome, Memory>
    ensures { IfOk result (λ o. outcome_view o ≡ functions.evaluated (funcs_view file.now) entry.now (map value_view inputs.now) turns) }
{
    let values = copies(alloc, inputs)?;
    let answer = evaluated(alloc, file.funcs(), entry.as_bytes(), values, turns);
    outcome_of(answer)
}
