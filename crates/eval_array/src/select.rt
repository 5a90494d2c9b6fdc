//! Selections by one subscript or two.

ghost use Rattle.std.specs.Prelude.{◌≡◌, ◌≤◌, ◌*◌, ◌&&◌, [], ◌∷◌, map, IfOk, vec_len};
ghost use Rattle.std.specs.Option.{ForSome};
ghost use Rattle.fi_rules.specs.Options.{and_then};
ghost use Rattle.fi_values.specs.Subscripts as subscripts;
ghost use Rattle.eval_value.specs.View.{item_view, shape_view};
ghost use Rattle.shape_rules.specs.Shapes.{elements_of};
ghost use Rattle.eval_array.specs.Choices.{crossed_places, crossed_selection, item_subscript, only_selection};
ghost use Rattle.eval_array.specs.Views.{choice_view, listed, selection_answer, selection_view};

use crate::chosen::Chosen;
use crate::places::grid;
use crate::selection::Selection;
use crate::shapes::only_shape;
use crate::subscripts::chosen;
use eval_value::Value;
use num_type::Memory;
use shape_rules::Shape;
use std::alloc::Global;

/// What subscripts select of a matrix of this shape; none stands for `:`. None where a value is no subscript, or there aren't one or two.
#[tactic(auto, using(crate::proofs::Selected::as_one, crate::proofs::Selected::as_two, crate::proofs::Selected::as_others))]
pub fn select(
    alloc: Global,
    shape: Shape,
    all: &[Option<Value>],
) -> Result<Option<Selection>, Memory>
    ensures { IfOk result (λ r. selection_answer r ≡ and_then (subscripts.as_subscripts (map item_view all.now)) (subscripts.selection (shape_view shape))) }
{
    if all.len() == 1 {
        let r = select_one(alloc, shape, &all[0])?;
        Ok(r)
    } else if all.len() == 2 {
        let r = select_two(alloc, shape, &all[0], &all[1])?;
        Ok(r)
    } else {
        Ok(None)
    }
}

// By one subscript, which counts by columns.
#[tactic(auto, using(crate::proofs::Selected::none_chosen, crate::proofs::Selected::one_chosen))]
fn select_one(
    alloc: Global,
    shape: Shape,
    subscript: &Option<Value>,
) -> Result<Option<Selection>, Memory>
    ensures { IfOk result (λ r. selection_answer r ≡ and_then (item_subscript subscript.now) (λ k. subscripts.selection (shape_view shape) (k ∷ []))) }
{
    match chosen(alloc, shape.elements(), subscript)? {
        None => Ok(None),
        Some(c) => Ok(Some(only(shape, c))),
    }
}

// What an only subscript selects.
fn only(shape: Shape, c: Chosen) -> Selection
    ensures { selection_view result ≡ only_selection (shape_view shape) (choice_view c) }
{
    let Chosen {
        own,
        places,
        fixed,
        oriented,
    } = c;
    let own = only_shape(shape, own, oriented);
    Selection {
        rows: own.rows(),
        columns: own.cols(),
        places,
        fixed,
    }
}

// By a subscript for rows and one for columns.
#[tactic(auto, using(crate::proofs::Selected::rows_missing, crate::proofs::Selected::columns_missing, crate::proofs::Selected::two_chosen))]
fn select_two(
    alloc: Global,
    shape: Shape,
    first: &Option<Value>,
    second: &Option<Value>,
) -> Result<Option<Selection>, Memory>
    ensures { IfOk result (λ r. selection_answer r ≡ and_then (item_subscript first.now) (λ i. and_then (item_subscript second.now) (λ j. subscripts.selection (shape_view shape) (i ∷ j ∷ [])))) }
{
    match chosen(alloc, shape.rows(), first)? {
        None => Ok(None),
        Some(rows) => match chosen(alloc, shape.cols(), second)? {
            None => Ok(None),
            Some(columns) => {
                let k = crossed(alloc, shape, &rows, &columns)?;
                Ok(Some(k))
            }
        },
    }
}

// The selected rows of the selected columns.
fn crossed(
    alloc: Global,
    shape: Shape,
    rows: &Chosen,
    columns: &Chosen,
) -> Result<Selection, Memory>
    ensures { IfOk result (λ k. selection_view k ≡ crossed_selection (shape_view shape) (choice_view rows.now) (choice_view columns.now)) }
{
    let places = crossed_places(alloc, shape.rows(), rows, columns)?;
    Ok(Selection {
        rows: rows.own.elements(),
        columns: columns.own.elements(),
        places,
        fixed: both(rows.fixed, columns.fixed),
    })
}

// Whether both are so.
fn both(a: bool, b: bool) -> bool
    ensures { result ≡ (a && b) }
{
    a && b
}

// Their places. None where one is out of its extent.
#[tactic(auto, unfolding(fi_rules::specs::Options::and_then))]
fn crossed_places(
    alloc: Global,
    extent: u32,
    rows: &Chosen,
    columns: &Chosen,
) -> Result<Option<Vec<u32>>, Memory>
    requires { extent ≤ 4096 }
    ensures value { IfOk result (λ r. listed r ≡ crossed_places extent (listed rows.now.places) (listed columns.now.places)) }
    ensures as_many { IfOk result (λ r. ForSome r (λ v. vec_len v ≡ elements_of rows.now.own * elements_of columns.now.own)) }
{
    match &rows.places {
        None => Ok(None),
        Some(row_places) => match &columns.places {
            None => Ok(None),
            Some(column_places) => {
                let places = grid(
                    alloc,
                    extent,
                    row_places.as_slice(),
                    column_places.as_slice(),
                )?;
                Ok(Some(places))
            }
        },
    }
}
