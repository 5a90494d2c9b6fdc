//! How many group loops and local arrays a program has.

ghost use Rattle.std.specs.Prelude.{◌≡◌, ◌<◌, ◌^◌, length};
ghost use Rattle.c_tree.specs.View.{stmt_view, block_view};
ghost use Rattle.c_tree.specs.Counted;
ghost use Rattle.c_tree.specs.Counted.{group_loops, all_group_loops, alike};

use crate::tree::{CStmt, CounterKind, LocalArray};
use num_type::Container;

fn group_loop(kind: CounterKind) -> u32
    ensures { result ≡ Counted.group_loop kind }
{
    match kind {
        CounterKind::Group => 1,
        CounterKind::Barrier | CounterKind::Source | CounterKind::Turn => 0,
    }
}

#[cycle(loops)]
fn loops_of(s: &CStmt) -> u32
    requires { group_loops (stmt_view s.now) < 2 ^ 32 }
    ensures { result ≡ group_loops (stmt_view s.now) }
{
    match s {
        CStmt::If {
            test: _,
            body,
            other,
        } => {
            let first = all_loops_of(body.as_slice());
            match other {
                None => first,
                Some(other) => first + all_loops_of(other.as_slice()),
            }
        }
        CStmt::For {
            counter,
            count: _,
            body,
        } => group_loop(counter.kind) + all_loops_of(body.as_slice()),
        CStmt::While { test: _, body } => all_loops_of(body.as_slice()),
        CStmt::Set { var: _, value: _ } => 0,
        CStmt::Store {
            array: _,
            at: _,
            value: _,
        } => 0,
        CStmt::Break => 0,
        CStmt::Continue => 0,
        CStmt::Return(_) => 0,
    }
}

/// How many loops of the statements have a counter of group loops; they must be fewer than `2^32`.
#[cycle(loops)]
pub fn all_loops_of(body: &[CStmt]) -> u32
    requires { all_group_loops (block_view body.now) < 2 ^ 32 }
    ensures { result ≡ all_group_loops (block_view body.now) }
{
    let mut sum = 0;
    for s in body {
        sum += loops_of(s);
    }
    sum
}

fn container_number(c: Container) -> u8
    ensures { result ≡ Counted.container_number c }
{
    match c {
        Container::I8 => 0,
        Container::I16 => 1,
        Container::I32 => 2,
        Container::I64 => 3,
        Container::U8 => 4,
        Container::U16 => 5,
        Container::U32 => 6,
        Container::U64 => 7,
    }
}

/// How many of the arrays have this container and this many elements; there must be fewer than `2^32` arrays.
pub fn arrays_alike(arrays: &[LocalArray], container: Container, count: u32) -> u32
    requires { length arrays.now < 2 ^ 32 }
    ensures { result ≡ alike arrays.now container count }
{
    let mut found = 0;
    for a in arrays {
        if container_number(a.container) == container_number(container) && a.count == count {
            found += 1;
        }
    }
    found
}
