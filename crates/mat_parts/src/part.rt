//! Parts of a tree, with their depths.

ghost use Rattle.std.specs.Prelude.{◌≡◌, ◌≤◌, ◌<◌, ◌+◌, ℕ, [], ◌∷◌, ◌++◌, IfOk, min, max, false};
ghost use Rattle.mat_ast.specs.Tree.{Exp, Number, Words, Name, Apply, End, Unary, Binary, Post, Range, RangeBy, Paren, Matrix, NoArgs, RowEnd, NoRows};
ghost use Rattle.mat_ast.specs.View.{expr_view, args_view, row_of, rows_view};
ghost use Rattle.mat_ast.specs.Depth.{depth, args_depth, row_depth, rows_depth};
ghost use Rattle.mat_grammar.specs.Grammar.{rank_with};
ghost use Rattle.mat_grammar.specs.Machine.{is_name, rank_of, with_item, with_whole, with_cell, with_row};
ghost use Rattle.mat_parts.specs.View.{cells_view};

use crate::rank::rank;
use fic_base::{Place, Text};
use mat_ast::{Arg, BinOp, Expr, PostOp, Row, UnOp};
use sqlite_items::Items;
use std::alloc::{AllocError, Global};

/// An expression and its depth, at most 101.
#[derive(Drop)]
pub struct Part {
    /// The expression.
    pub expr: Expr,
    /// Its depth, at most 101.
    pub deep: u32,
    /// Its level.
    pub rank: u32,
    ghost sized: { deep ≡ min (depth (expr_view expr)) 101 },
    ghost ranked: { rank ≡ rank_of (expr_view expr) },
}

/// Arguments and their depth, at most 101.
#[derive(Drop)]
pub struct Given {
    /// The arguments.
    pub args: Items<Arg>,
    /// Their depth, at most 101.
    pub deep: u32,
    ghost sized: { deep ≡ min (args_depth (args_view args)) 101 },
}

/// The elements of a row and their depth, at most 101.
#[derive(Drop)]
pub struct Line {
    /// The elements.
    pub cells: Items<Expr>,
    /// Their depth, at most 101.
    pub deep: u32,
    ghost sized: { deep ≡ min (row_depth (cells_view cells)) 101 },
}

/// The rows of a bracket and their depth, at most 101.
#[derive(Drop)]
pub struct Grid {
    /// The rows.
    pub rows: Items<Row>,
    /// Their depth, at most 101.
    pub deep: u32,
    ghost sized: { deep ≡ min (rows_depth (rows_view rows)) 101 },
}

/// An expression that is no name alone.
#[derive(Drop)]
pub struct Compound {
    /// The expression.
    pub part: Part,
    ghost compound: { is_name (expr_view part.expr) ≡ false },
}

/// The greater of two numbers.
pub fn greater(a: u32, b: u32) -> u32
    ensures { result ≡ max a b }
{
    if a < b { b } else { a }
}

/// One more, at most 101.
pub fn deeper(deep: u32) -> u32
    ensures { result ≡ min (deep + 1) 101 }
{
    if deep >= 100 { 101 } else { deep + 1 }
}

/// A number.
pub fn number(place: Place, text: Text, imaginary: bool) -> Part
    ensures { expr_view result.expr ≡ Number place text imaginary }
{
    Part {
        expr: mat_ast::number(place, text, imaginary),
        deep: 1,
        rank: 11,
    }
}

/// A text.
pub fn words(place: Place, text: Text) -> Part
    ensures { expr_view result.expr ≡ Words place text }
{
    Part {
        expr: mat_ast::words(place, text),
        deep: 1,
        rank: 11,
    }
}

/// A name.
pub fn name(place: Place, text: Text) -> Part
    ensures { expr_view result.expr ≡ Name place text }
{
    Part {
        expr: mat_ast::name(place, text),
        deep: 1,
        rank: 11,
    }
}

/// `end` as a value.
pub fn end(place: Place) -> Part
    ensures { expr_view result.expr ≡ End place }
{
    Part {
        expr: mat_ast::end(place),
        deep: 1,
        rank: 11,
    }
}

/// A sign before an operand.
pub fn unary(alloc: Global, place: Place, sign: UnOp, part: Part) -> Result<Part, AllocError>
    ensures { IfOk result (λ made. expr_view made.expr ≡ Unary place sign (expr_view part.expr)) }
{
    let deep = deeper(part.deep);
    let expr = mat_ast::unary(alloc, place, sign, part.expr)?;
    Ok(Part {
        expr,
        deep,
        rank: 8,
    })
}

/// The level of an operator with this right operand.
fn joined_rank(op: BinOp, right: &Part) -> u32
    ensures { result ≡ rank_with op (expr_view right.now.expr) }
{
    if rank(op) == 10 {
        if right.rank == 8 {
            return 9;
        }
    }
    rank(op)
}

/// Two operands and their operator.
pub fn binary(
    alloc: Global,
    place: Place,
    op: BinOp,
    left: Part,
    right: Part,
) -> Result<Part, AllocError>
    ensures { IfOk result (λ made. expr_view made.expr ≡ Binary place op (expr_view left.expr) (expr_view right.expr)) }
{
    let rank = joined_rank(op, &right);
    let deep = deeper(greater(left.deep, right.deep));
    let expr = mat_ast::binary(alloc, place, op, left.expr, right.expr)?;
    Ok(Part { expr, deep, rank })
}

/// A transpose of an operand.
pub fn post(alloc: Global, place: Place, mark: PostOp, part: Part) -> Result<Part, AllocError>
    ensures { IfOk result (λ made. expr_view made.expr ≡ Post place mark (expr_view part.expr)) }
{
    let deep = deeper(part.deep);
    let expr = mat_ast::post(alloc, place, mark, part.expr)?;
    Ok(Part {
        expr,
        deep,
        rank: 10,
    })
}

/// A range without a step.
pub fn range(alloc: Global, place: Place, first: Part, last: Part) -> Result<Part, AllocError>
    ensures { IfOk result (λ made. expr_view made.expr ≡ Range place (expr_view first.expr) (expr_view last.expr)) }
{
    let deep = deeper(greater(first.deep, last.deep));
    let expr = mat_ast::range(alloc, place, first.expr, last.expr)?;
    Ok(Part {
        expr,
        deep,
        rank: 5,
    })
}

/// A range with a step.
pub fn range_by(
    alloc: Global,
    place: Place,
    first: Part,
    step: Part,
    last: Part,
) -> Result<Part, AllocError>
    ensures { IfOk result (λ made. expr_view made.expr ≡ RangeBy place (expr_view first.expr) (expr_view step.expr) (expr_view last.expr)) }
{
    let deep = deeper(greater(first.deep, greater(step.deep, last.deep)));
    let expr = mat_ast::range_by(alloc, place, first.expr, step.expr, last.expr)?;
    Ok(Part {
        expr,
        deep,
        rank: 5,
    })
}

/// An operand in parentheses.
pub fn paren(alloc: Global, place: Place, part: Part) -> Result<Part, AllocError>
    ensures { IfOk result (λ made. expr_view made.expr ≡ Paren place (expr_view part.expr)) }
{
    let deep = deeper(part.deep);
    let expr = mat_ast::paren(alloc, place, part.expr)?;
    Ok(Part {
        expr,
        deep,
        rank: 11,
    })
}

/// A name with its parentheses.
pub fn apply(place: Place, text: Text, opens: Place, given: Given) -> Part
    ensures { expr_view result.expr ≡ Apply place text opens (args_view given.args) }
{
    let deep = deeper(given.deep);
    let expr = mat_ast::apply(place, text, opens, given.args);
    Part {
        expr,
        deep,
        rank: 11,
    }
}

/// A bracket of rows.
pub fn matrix(place: Place, grid: Grid) -> Part
    ensures { expr_view result.expr ≡ Matrix place (rows_view grid.rows) }
{
    let deep = deeper(grid.deep);
    let expr = mat_ast::matrix(place, grid.rows);
    Part {
        expr,
        deep,
        rank: 11,
    }
}

/// No arguments.
pub fn no_args(alloc: Global) -> Given
    ensures { args_view result.args ≡ NoArgs }
{
    Given {
        args: Items::new(alloc),
        deep: 0,
    }
}

/// The arguments with one more.
pub fn and_item(given: Given, part: Part) -> Result<Given, AllocError>
    ensures { IfOk result (λ made. args_view made.args ≡ with_item (args_view given.args) (expr_view part.expr)) }
{
    let deep = greater(given.deep, part.deep);
    let mut args = given.args;
    args.push(Arg::Item(part.expr))?;
    Ok(Given { args, deep })
}

/// The arguments with a colon.
pub fn and_whole(given: Given) -> Result<Given, AllocError>
    ensures { IfOk result (λ made. args_view made.args ≡ with_whole (args_view given.args)) }
{
    let deep = given.deep;
    let mut args = given.args;
    args.push(Arg::All)?;
    Ok(Given { args, deep })
}

/// No elements.
pub fn no_cells(alloc: Global) -> Line
    ensures { cells_view result.cells ≡ RowEnd }
{
    Line {
        cells: Items::new(alloc),
        deep: 0,
    }
}

/// The elements with one more.
pub fn and_cell(line: Line, part: Part) -> Result<Line, AllocError>
    ensures { IfOk result (λ made. cells_view made.cells ≡ with_cell (cells_view line.cells) (expr_view part.expr)) }
{
    let deep = greater(line.deep, part.deep);
    let mut cells = line.cells;
    cells.push(part.expr)?;
    Ok(Line { cells, deep })
}

/// No rows.
pub fn no_rows(alloc: Global) -> Grid
    ensures { rows_view result.rows ≡ NoRows }
{
    Grid {
        rows: Items::new(alloc),
        deep: 0,
    }
}

/// The rows with one more.
pub fn and_row(grid: Grid, line: Line) -> Result<Grid, AllocError>
    ensures { IfOk result (λ made. rows_view made.rows ≡ with_row (rows_view grid.rows) (cells_view line.cells)) }
{
    let deep = greater(grid.deep, line.deep);
    let mut rows = grid.rows;
    rows.push(Row { cells: line.cells })?;
    Ok(Grid { rows, deep })
}
