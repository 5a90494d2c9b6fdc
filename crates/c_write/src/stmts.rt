//! Statements, each on lines of its own.

ghost use Rattle.std.specs.Prelude.{◌≡◌, ◌≤◌, ◌^◌, ◌++◌, IfErr, IfOk, OnOk, suc, codes, decimal};
ghost use Rattle.c_tree.specs.Texts.{store_text, var_text};
ghost use Rattle.c_tree.specs.View.{expr_view, test_view, stmt_view, block_view};
ghost use Rattle.c_tree.specs.Layout.{exp_text, indent, start_text, limit_text, step_text, for_text, head_text, target_text, sta_text, block_text};

use crate::exprs::{put_expr, put_test};
use crate::pieces::{
    put, put_array, put_constant, put_counter, put_indent, put_number, put_store, put_var,
};
use c_tree::{Arrays, CArray, CExpr, CStmt, CTest, CWord, Counter};
use num_type::Memory;
use sqlite_items::Items;

/// A statement where so many braces are open.
#[cycle(stmt)]
pub fn put_stmt(out: &mut Vec<u8>, all: &Arrays, depth: usize, s: &CStmt) -> Result<(), Memory>
    ensures { OnOk result (out.new.items ≡ out.old.items ++ sta_text all.now depth (stmt_view s.now)) }
{
    put_indent(out, depth)?;
    match s {
        CStmt::Set { var, value } => put_set(out, all, *var, value),
        CStmt::Store { array, at, value } => {
            put_target(out, all, *array, at)?;
            put_stored(out, all, *array, value)
        }
        CStmt::If { test, body, other } => {
            put_head(out, all, b"if", test)?;
            put_body(out, all, depth, body)?;
            match other {
                None => put(out, b"}\n"),
                Some(other) => {
                    put(out, b"} else {\n")?;
                    put_body(out, all, depth, other)?;
                    put(out, b"}\n")
                }
            }
        }
        CStmt::For {
            counter,
            count,
            body,
        } => {
            put_for(out, *counter, *count)?;
            put_body(out, all, depth, body)?;
            put(out, b"}\n")
        }
        CStmt::While { test, body } => {
            put_head(out, all, b"while", test)?;
            put_body(out, all, depth, body)?;
            put(out, b"}\n")
        }
        CStmt::Break => put(out, b"break;\n"),
        CStmt::Continue => put(out, b"continue;\n"),
        CStmt::Return(status) => put_return(out, *status),
    }
}

// How many braces are open in a body. It refuses as want of memory where a `usize` has no such number.
fn within(depth: usize) -> Result<usize, Memory>
    ensures next { IfOk result (λ inner. inner ≡ suc depth) }
    ensures limit { IfErr result (λ e. 2 ^ 64 ≤ suc depth) }
{
    match depth.checked_add(1) {
        None => Err(Memory),
        Some(inner) => Ok(inner),
    }
}

// The statements of a body, and the blanks before its closing brace.
#[cycle(stmt)]
fn put_body(
    out: &mut Vec<u8>,
    all: &Arrays,
    depth: usize,
    body: &Items<CStmt>,
) -> Result<(), Memory>
    ensures { OnOk result (out.new.items ≡ out.old.items ++ block_text all.now (suc depth) (block_view body.now) ++ indent depth) }
{
    let inner = within(depth)?;
    put_block(out, all, inner, body.as_slice())?;
    put_indent(out, depth)
}

/// Statements where so many braces are open.
#[cycle(stmt)]
pub fn put_block(
    out: &mut Vec<u8>,
    all: &Arrays,
    depth: usize,
    body: &[CStmt],
) -> Result<(), Memory>
    ensures { OnOk result (out.new.items ≡ out.old.items ++ block_text all.now depth (block_view body.now)) }
{
    for s in body {
        put_stmt(out, all, depth, s)?;
    }
    Ok(())
}

// A variable and its value.
fn put_set(out: &mut Vec<u8>, all: &Arrays, var: u32, value: &CExpr) -> Result<(), Memory>
    ensures { OnOk result (out.new.items ≡ out.old.items ++ var_text var ++ codes " = " ++ exp_text all.now (expr_view value.now) ++ codes ";\n") }
{
    put_var(out, var as u64)?;
    put(out, b" = ")?;
    put_expr(out, all, value)?;
    put(out, b";\n")
}

// A return with its status.
fn put_return(out: &mut Vec<u8>, status: u32) -> Result<(), Memory>
    ensures { OnOk result (out.new.items ≡ out.old.items ++ codes "return " ++ codes "INT32_C(" ++ decimal status ++ codes ");\n") }
{
    put(out, b"return ")?;
    put(out, b"INT32_C(")?;
    put_number(out, status as u64)?;
    put(out, b");\n")
}

// The array of a store, its subscript and the sign.
fn put_target(out: &mut Vec<u8>, all: &Arrays, array: CArray, at: &CExpr) -> Result<(), Memory>
    ensures { OnOk result (out.new.items ≡ out.old.items ++ target_text all.now array (expr_view at.now)) }
{
    put_array(out, all, array)?;
    put(out, b"[")?;
    put_expr(out, all, at)?;
    put(out, b"] = ")
}

// The value of a store, with its cast and the end of the line.
fn put_stored(out: &mut Vec<u8>, all: &Arrays, array: CArray, value: &CExpr) -> Result<(), Memory>
    ensures { OnOk result (out.new.items ≡ out.old.items ++ codes "(" ++ store_text all.now array ++ codes ")" ++ exp_text all.now (expr_view value.now) ++ codes ";\n") }
{
    put(out, b"(")?;
    put_store(out, all, array)?;
    put(out, b")")?;
    put_expr(out, all, value)?;
    put(out, b";\n")
}

// The head of an if or a while.
fn put_head(out: &mut Vec<u8>, all: &Arrays, word: &[u8], t: &CTest) -> Result<(), Memory>
    ensures { OnOk result (out.new.items ≡ out.old.items ++ head_text all.now word.now (test_view t.now)) }
{
    put(out, word)?;
    put(out, b" (")?;
    put_test(out, all, t)?;
    put(out, b") {\n")
}

// The head of a loop that counts.
fn put_for(out: &mut Vec<u8>, counter: Counter, count: u64) -> Result<(), Memory>
    ensures { OnOk result (out.new.items ≡ out.old.items ++ for_text counter count) }
{
    put_start(out, counter)?;
    put_limit(out, counter, count)?;
    put_step(out, counter)
}

fn put_start(out: &mut Vec<u8>, counter: Counter) -> Result<(), Memory>
    ensures { OnOk result (out.new.items ≡ out.old.items ++ start_text counter) }
{
    put(out, b"for (")?;
    put_counter(out, counter)?;
    put(out, b" = INT64_C(0); ")
}

fn put_limit(out: &mut Vec<u8>, counter: Counter, count: u64) -> Result<(), Memory>
    ensures { OnOk result (out.new.items ≡ out.old.items ++ limit_text counter count) }
{
    put_counter(out, counter)?;
    put(out, b" < ")?;
    put_constant(out, CWord::I64, count)?;
    put(out, b"; ")
}

fn put_step(out: &mut Vec<u8>, counter: Counter) -> Result<(), Memory>
    ensures { OnOk result (out.new.items ≡ out.old.items ++ step_text counter) }
{
    put_counter(out, counter)?;
    put(out, b" = (")?;
    put_counter(out, counter)?;
    put(out, b" + INT64_C(1))) {\n")
}
