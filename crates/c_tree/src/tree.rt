//! The trees of programs.

use crate::interface::Interface;
use num_type::Container;
use sqlite_items::{Boxed, Items};
use std::alloc::Global;

/// What a counter counts.
#[derive(Clone, Copy, Debug, PartialEq, Eq)]
pub enum CounterKind {
    /// The elements of a group loop, `g0, g1, ..`.
    Group,
    /// The turns of a loop of a barrier, `b0, b1, ..`.
    Barrier,
    /// The items of a `for` of the source, `k0, k1, ..`.
    Source,
    /// The turn of a loop of one turn, `w0, w1, ..`.
    Turn,
}

/// A counter: its kind, and its number among the counters of this kind, from 0.
#[derive(Clone, Copy, Debug, PartialEq, Eq)]
pub struct Counter {
    pub kind: CounterKind,
    pub number: u32,
}

/// An array, by its number among the input arrays, the output arrays or the local arrays, from 0.
#[derive(Clone, Copy, Debug, PartialEq, Eq)]
pub enum CArray {
    Input(u32),
    Output(u32),
    Local(u32),
}

/// The type of a variable or an expression (ISO/IEC 9899:1999, 7.18.1.1).
#[derive(Clone, Copy, Debug, PartialEq, Eq)]
pub enum CWord {
    /// `int64_t`
    I64,
    /// `uint64_t`
    U64,
}

/// A relational or equality operator (6.5.8, 6.5.9).
#[derive(Clone, Copy, Debug, PartialEq, Eq)]
pub enum CRel {
    Eq,
    Ne,
    Lt,
    Le,
    Gt,
    Ge,
}

/// A binary operator on words (6.5.5 to 6.5.7, 6.5.10 to 6.5.12).
#[derive(Clone, Copy, Debug, PartialEq, Eq)]
pub enum COp {
    Add,
    Sub,
    Mul,
    And,
    Or,
    Xor,
    Shl,
    Shr,
}

/// A test: two expressions and the relation between them.
#[cycle(expr)]
#[derive(Drop)]
pub struct CTest {
    pub left: CExpr,
    pub rel: CRel,
    pub right: CExpr,
}

/// An expression.
#[cycle(expr)]
#[derive(Drop)]
pub enum CExpr {
    /// `INT64_C(n)`
    I64(u64),
    /// `UINT64_C(n)`
    U64(u64),
    /// A variable, by its number among the variables.
    Var(u32),
    /// A counter.
    Count(Counter),
    /// `(word)array[at]`, where the word follows from the array's container.
    Element { array: CArray, at: Boxed<CExpr> },
    /// `(word)e`
    Cast(CWord, Boxed<CExpr>),
    /// `(int64_t)(test)`
    Test(Boxed<CTest>),
    /// `(-e)`
    Neg(Boxed<CExpr>),
    /// `(a op b)`
    Binary(COp, Boxed<CExpr>, Boxed<CExpr>),
    /// `(test ? a : b)`
    Choose(Boxed<CTest>, Boxed<CExpr>, Boxed<CExpr>),
}

/// A statement.
#[cycle(stmt)]
#[derive(Drop)]
pub enum CStmt {
    /// `var = value;`
    Set {
        var: u32,
        value: CExpr,
    },
    /// `array[at] = (container)value;`, where the container is the array's.
    Store {
        array: CArray,
        at: CExpr,
        value: CExpr,
    },
    /// `if (test) {..}`, with an `else {..}` or without.
    If {
        test: CTest,
        body: Items<CStmt>,
        other: Option<Items<CStmt>>,
    },
    /// A `for` that counts from 0 to below `count`.
    For {
        counter: Counter,
        count: u64,
        body: Items<CStmt>,
    },
    /// `while (test) {..}`
    While {
        test: CTest,
        body: Items<CStmt>,
    },
    Break,
    Continue,
    /// `return INT32_C(n);`
    Return(u32),
}

/// A local array: the type of its elements, and how many it has.
#[derive(Clone, Copy, Debug, PartialEq, Eq)]
pub struct LocalArray {
    pub container: Container,
    pub count: u32,
}

/// A program: its interface, its declarations in order, and the statements of its function.
#[derive(Drop)]
pub struct CTree {
    pub interface: Interface,
    /// The local arrays `m0, m1, ..`.
    pub arrays: Items<LocalArray>,
    /// The types of the variables `v0, v1, ..`.
    pub words: Items<CWord>,
    /// How many counters of group loops there are.
    pub groups: u32,
    /// How many counters of loops of barriers there are.
    pub barriers: u32,
    /// How many counters of the source's `for` there are.
    pub sources: u32,
    /// How many counters of loops of one turn there are.
    pub turns: u32,
    pub body: Items<CStmt>,
}

impl CTree {
    ghost use Rattle.std.specs.Prelude.{◌≡◌, []};

    /// The tree of these variables and statements, without local arrays and counters.
    pub fn plain(
        alloc: Global,
        interface: Interface,
        words: Items<CWord>,
        body: Items<CStmt>,
    ) -> CTree
        ensures { result ≡ record { interface = interface; arrays = []; words = words; groups = 0; barriers = 0; sources = 0; turns = 0; body = body } }
    {
        CTree {
            interface,
            arrays: Items::new(alloc),
            words,
            groups: 0,
            barriers: 0,
            sources: 0,
            turns: 0,
            body,
        }
    }
}

/// What gives one value: the types of the variables that it takes, the statements that go before, and the expression.
#[derive(Drop)]
pub struct CPart {
    pub words: Items<CWord>,
    pub before: Items<CStmt>,
    pub value: CExpr,
}
