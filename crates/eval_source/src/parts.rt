//! Values of expressions behind those of their parts.

ghost use Rattle.std.specs.Prelude.{◌≡◌, ◌++◌, ◌∷◌, [], Some, length, map, OnOk};
ghost use Rattle.mat_ast.specs.View.{args_view};
ghost use Rattle.fi_rules.specs.Options.{◌|>◌};
ghost use Rattle.fi_eval.specs.Outcome.{Gives, bind, or_wrong};
ghost use Rattle.fi_values.specs.Brackets as brackets;
ghost use Rattle.fi_values.specs.Logicals.{deciding, scalar_truth, truth_value};
ghost use Rattle.fi_values.specs.Numbers.{whole_value};
ghost use Rattle.fi_values.specs.Ranges as ranges;
ghost use Rattle.fi_values.specs.Reads as reads;
ghost use Rattle.fi_values.specs.Subscripts as subscripting;
ghost use Rattle.fi_values.specs.Transposes as transposes;
ghost use Rattle.fi_meaning.specs.Environment.{variable};
ghost use Rattle.fi_meaning.specs.Expressions as meaning;
ghost use Rattle.fi_meaning.specs.Operators as operators;
ghost use Rattle.eval_value.specs.Tells.{Tells};
ghost use Rattle.eval_value.specs.View.{item_view, row_view, value_view};
ghost use Rattle.eval_source.specs.View.{env_view};

use crate::variables::Variables;
use eval_array::{bracket, extent, ranged, read, transposed};
use eval_call::{operate, signed};
use eval_value::{Halt, Value, make_truth, make_whole};
use fic_base::Place;
use mat_ast::{Arg, BinOp, PostOp, UnOp};
use num_type::Memory;
use sqlite_items::Boxed;
use std::alloc::Global;

// A value that has to be there; wrong at the place where there is none.
#[tactic(auto, unfolding(fi_eval::specs::Outcome::or_wrong))]
fn settled(alloc: Global, at: Place, found: Option<Value>) -> Result<Boxed<Value>, Halt>
    ensures { Tells result value_view (or_wrong at (item_view found)) }
{
    match found {
        None => Err(Halt::Wrong(at)),
        Some(v) => {
            let kept = Boxed::new(alloc, v)?;
            Ok(kept)
        }
    }
}

/// A sign, or `~`, before a value.
#[tactic(auto, using(eval_call::proofs::Follow::known))]
pub fn sign_value(
    alloc: Global,
    at: Place,
    sign: UnOp,
    value: Boxed<Value>,
) -> Result<Boxed<Value>, Halt>
    ensures { Tells result value_view (or_wrong at (operators.by_sign sign (value_view value))) }
{
    let found = signed(alloc, sign, value.get())?;
    settled(alloc, at, found)
}

/// A transpose.
#[tactic(auto, using(eval_call::proofs::Follow::known))]
pub fn transposed_value(
    alloc: Global,
    at: Place,
    mark: PostOp,
    value: Boxed<Value>,
) -> Result<Boxed<Value>, Halt>
    ensures { Tells result value_view (or_wrong at (transposes.transposed mark (value_view value))) }
{
    let found = transposed(alloc, mark, value.get())?;
    settled(alloc, at, found)
}

/// A range.
#[tactic(auto, using(eval_call::proofs::Follow::known))]
pub fn range_value(
    alloc: Global,
    at: Place,
    first: Boxed<Value>,
    step: Boxed<Value>,
    last: Boxed<Value>,
) -> Result<Boxed<Value>, Halt>
    ensures { Tells result value_view (or_wrong at (ranges.ranged (value_view first) (value_view step) (value_view last))) }
{
    let found = ranged(alloc, first.get(), step.get(), last.get())?;
    settled(alloc, at, found)
}

/// The step of a range that has none: 1.
pub fn unit_step(alloc: Global) -> Result<Boxed<Value>, Halt>
    ensures { Tells result value_view (Gives (whole_value 1)) }
{
    let step = make_whole(alloc, 1)?;
    let kept = Boxed::new(alloc, step)?;
    Ok(kept)
}

/// A range without a step, which is 1 then.
pub fn unit_range(
    alloc: Global,
    at: Place,
    first: Boxed<Value>,
    last: Boxed<Value>,
) -> Result<Boxed<Value>, Halt>
    ensures { Tells result value_view (or_wrong at (ranges.ranged (value_view first) (whole_value 1) (value_view last))) }
{
    let step = unit_step(alloc)?;
    range_value(alloc, at, first, step, last)
}

/// A bracket of rows of values.
#[tactic(auto, using(eval_call::proofs::Follow::known))]
pub fn bracket_value(alloc: Global, at: Place, rows: Vec<Vec<Value>>) -> Result<Boxed<Value>, Halt>
    ensures { Tells result value_view (or_wrong at (brackets.bracket (map row_view rows.items))) }
{
    let found = bracket(alloc, rows.as_slice())?;
    settled(alloc, at, found)
}

/// An operator between two values.
#[tactic(auto, using(eval_call::proofs::Follow::known))]
pub fn pair_value(
    alloc: Global,
    at: Place,
    op: BinOp,
    x: Boxed<Value>,
    y: Boxed<Value>,
) -> Result<Boxed<Value>, Halt>
    ensures { Tells result value_view (or_wrong at (operators.by_operator op (value_view x) (value_view y))) }
{
    let found = operate(alloc, op, x.get(), y.get())?;
    settled(alloc, at, found)
}

// The elements of a value that subscripts select.
fn read_selected(
    alloc: Global,
    at: Place,
    site: u64,
    value: &Value,
    subscripts: &[Option<Value>],
) -> Result<Boxed<Value>, Halt>
    ensures { Tells result value_view (bind (or_wrong at (subscripting.as_subscripts (map item_view subscripts.now))) (λ subs. reads.read at site (value_view value.now) subs)) }
{
    let found = read(alloc, at, site, value, subscripts)?;
    let kept = Boxed::new(alloc, found)?;
    Ok(kept)
}

/// A read of a variable by subscripts; wrong at the place where it has no value.
pub fn read_value(
    alloc: Global,
    names: &Variables,
    at: Place,
    opens: Place,
    name: &[u8],
    subscripts: Vec<Option<Value>>,
) -> Result<Boxed<Value>, Halt>
    ensures { Tells result value_view (bind (variable (env_view names.now) at name.now) (λ v. bind (or_wrong at (subscripting.as_subscripts (map item_view subscripts.items))) (λ subs. reads.read at (meaning.site_of opens) v subs))) }
{
    match names.get(name) {
        None => Err(Halt::Wrong(at)),
        Some(v) => {
            let site = site_of(opens);
            read_selected(alloc, at, site, v, subscripts.as_slice())
        }
    }
}

/// The number of a fault at an opening parenthesis.
pub fn site_of(opens: Place) -> u64
    ensures { result ≡ meaning.site_of opens }
{
    opens.offset as u64 + 1
}

/// What `end` means in a subscript of a variable, by its number, from 0, of so many; nothing where the variable has no value.
pub fn end_in(names: &Variables, name: &[u8], number: usize, many: usize) -> Option<u32>
    ensures { result ≡ (env_view names.now name.now |> (λ u. Some (subscripting.extent (reads.shape_of u) number many))) }
{
    match names.get(name) {
        None => None,
        Some(v) => Some(extent(v, number, many)),
    }
}

/// Puts a value behind those of a row. Want of memory is the only refusal.
pub fn add_value(values: &mut Vec<Value>, value: Boxed<Value>) -> Result<(), Memory>
    ensures { OnOk result (values.new.items ≡ values.old.items ++ value ∷ []) }
{
    values.push(value.into_inner())?;
    Ok(())
}

/// Puts an argument or a subscript behind others. Want of memory is the only refusal.
pub fn add_item(items: &mut Vec<Option<Value>>, item: Option<Boxed<Value>>) -> Result<(), Memory>
    ensures { OnOk result (items.new.items ≡ items.old.items ++ item ∷ []) }
{
    match item {
        None => {
            items.push(None)?;
            Ok(())
        }
        Some(value) => {
            items.push(Some(value.into_inner()))?;
            Ok(())
        }
    }
}

/// How many items there are.
pub fn number_of(items: &Vec<Option<Value>>) -> usize
    ensures { result ≡ length items.now.items }
{
    items.as_slice().len()
}

/// How many subscripts or arguments there are.
#[tactic(auto, using(crate::proofs::Views::count_is))]
pub fn count_of(args: &[Arg]) -> usize
    ensures { result ≡ meaning.args_count (args_view args.now) }
{
    args.len()
}

/// The truth of an operand of an operator that skips, if it has one.
pub fn truth_in(value: Boxed<Value>) -> Option<bool>
    ensures { result ≡ scalar_truth (value_view value) }
{
    eval_bits::scalar_truth(value.get())
}

/// A truth that has to be there; wrong at the place where there is none.
#[tactic(auto, unfolding(fi_eval::specs::Outcome::or_wrong))]
pub fn settled_truth(at: Place, truth: Option<bool>) -> Result<bool, Halt>
    ensures { Tells result (λ b. b) (or_wrong at truth) }
{
    match truth {
        None => Err(Halt::Wrong(at)),
        Some(b) => Ok(b),
    }
}

/// The truth of the left operand that decides alone. None for an operator that evaluates both.
#[tactic(auto, unfolding(fi_values::specs::Logicals::deciding))]
pub fn decides(op: BinOp) -> Option<bool>
    ensures { result ≡ deciding op }
{
    match op {
        BinOp::AndAnd => Some(false),
        BinOp::OrOr => Some(true),
        _ => None,
    }
}

/// Whether the left operand of an operator that skips has the truth that decides.
#[tactic(auto, unfolding(fi_meaning::specs::Expressions::decided))]
pub fn has_decided(deciding: bool, left: Option<bool>) -> bool
    ensures { result ≡ meaning.decided deciding left }
{
    match left {
        None => false,
        Some(truth) => { if deciding { truth } else { !truth } }
    }
}

/// A truth as a value.
pub fn made_truth(alloc: Global, truth: bool) -> Result<Boxed<Value>, Halt>
    ensures { Tells result value_view (Gives (truth_value truth)) }
{
    let v = make_truth(alloc, truth)?;
    let kept = Boxed::new(alloc, v)?;
    Ok(kept)
}

/// The truth of the right operand of an operator that skips as its result; wrong at its place where one of the two operands has none.
#[tactic(auto, unfolding(fi_meaning::specs::Expressions::right_decides, fi_rules::specs::Options::and_then, fi_eval::specs::Outcome::or_wrong))]
pub fn right_truth(
    alloc: Global,
    at: Place,
    left: Option<bool>,
    right: Boxed<Value>,
) -> Result<Boxed<Value>, Halt>
    ensures { Tells result value_view (or_wrong at (meaning.right_decides left (value_view right))) }
{
    let truth = truth_in(right);
    match left {
        None => Err(Halt::Wrong(at)),
        Some(_) => match truth {
            None => Err(Halt::Wrong(at)),
            Some(t) => made_truth(alloc, t),
        },
    }
}
