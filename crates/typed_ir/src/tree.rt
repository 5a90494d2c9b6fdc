//! The trees. A node has the place of its expression in the source, and its type.

use crate::ty::Ty;
use fic_base::{Place, Text};
use mat_ast::{BinOp, Ident, PostOp, UnOp};
use sqlite_items::{Boxed, Items};

/// An input or an output of a function: its name and its type.
#[derive(Drop)]
pub struct Slot {
    /// Its bytes.
    pub name: Text,
    /// Its type.
    pub ty: Ty,
}

/// An expression with its type.
#[cycle(typed)]
#[derive(Drop)]
pub struct TExpr {
    /// Where it stands.
    pub place: Place,
    /// Its type.
    pub ty: Ty,
    /// What it is.
    pub kind: TKind,
}

/// The kinds of typed expressions.
#[cycle(typed)]
#[derive(Drop)]
pub enum TKind {
    /// A number.
    Number {
        /// Its text without an `i` or `j`.
        text: Text,
        /// Whether it has an `i` or `j`.
        imaginary: bool,
    },
    /// A text without its quotes.
    Words(Text),
    /// The value of a variable.
    Read(Text),
    /// A subscripted read of a variable.
    Select {
        /// The variable.
        name: Text,
        /// The number of its fault: one more than the byte offset of its opening parenthesis.
        site: u32,
        /// The subscripts.
        args: Items<TArg>,
    },
    /// A call of a built-in function.
    Builtin {
        /// Its name.
        name: Text,
        /// Its arguments.
        args: Items<TExpr>,
    },
    /// A call of a function of the file.
    Call(TCall),
    /// `end` in a subscript.
    End,
    /// A sign and its operand.
    Unary(UnOp, Boxed<TExpr>),
    /// An operator and its operands.
    Binary(BinOp, Boxed<TExpr>, Boxed<TExpr>),
    /// An operand and its transpose.
    Post(PostOp, Boxed<TExpr>),
    /// A range.
    Range {
        /// The first bound.
        first: Boxed<TExpr>,
        /// The step, where one is written.
        step: Option<Boxed<TExpr>>,
        /// The last bound.
        last: Boxed<TExpr>,
    },
    /// An expression in parentheses.
    Paren(Boxed<TExpr>),
    /// A bracket, by rows.
    Matrix(Items<TRow>),
}

/// A subscript.
#[cycle(typed)]
#[derive(Drop)]
pub enum TArg {
    /// `:`, all elements.
    All,
    /// An expression.
    Item(TExpr),
}

/// A row of a bracket.
#[cycle(typed)]
#[derive(Drop)]
pub struct TRow {
    /// Its elements.
    pub cells: Items<TExpr>,
}

/// A call of a function of the file, which is typed anew for its arguments.
#[cycle(typed)]
#[derive(Drop)]
pub struct TCall {
    /// The function, typed for these arguments.
    pub callee: Boxed<FnTree>,
    /// The arguments.
    pub args: Items<TExpr>,
    /// How many outputs it is asked for.
    pub outs: u32,
}

/// A statement.
#[cycle(typed)]
#[derive(Drop)]
pub enum TStmt {
    /// An assignment to a variable.
    Assign {
        /// The variable.
        name: Ident,
        /// What it becomes.
        value: TExpr,
    },
    /// An assignment to subscripts of a variable.
    Store {
        /// The variable.
        name: Ident,
        /// The number of its fault: one more than the byte offset of its opening parenthesis.
        site: u32,
        /// The subscripts.
        args: Items<TArg>,
        /// What the elements become.
        value: TExpr,
    },
    /// An assignment of a call's outputs to a list of variables.
    Multi {
        /// The variables.
        targets: Items<Ident>,
        /// The call.
        call: TExpr,
    },
    /// An `if`.
    If {
        /// Its keyword.
        place: Place,
        /// The arm of the `if` and those of each `elseif`.
        arms: Items<TArm>,
        /// The block of the `else`, where there is one.
        other: Option<Items<TStmt>>,
    },
    /// A `for`.
    For {
        /// Its keyword.
        place: Place,
        /// The loop variable.
        name: Ident,
        /// The bounds of its range, as they are written: two, or three with a step in the middle.
        bounds: Items<TExpr>,
        /// The first item.
        first: i64,
        /// The step from an item to the next.
        step: i64,
        /// How many items there are.
        count: u32,
        /// What is done for each item.
        body: Items<TStmt>,
    },
    /// A `while`.
    While {
        /// Its keyword.
        place: Place,
        /// What is asked before each turn.
        condition: TExpr,
        /// What is done in each turn.
        body: Items<TStmt>,
    },
    /// A `break` at its place.
    Break(Place),
    /// A `continue` at its place.
    Continue(Place),
}

/// A condition and what it guards.
#[cycle(typed)]
#[derive(Drop)]
pub struct TArm {
    /// The condition.
    pub condition: TExpr,
    /// What is done where it holds.
    pub body: Items<TStmt>,
}

/// A function, typed for its inputs.
#[cycle(typed)]
#[derive(Drop)]
pub struct FnTree {
    /// Its name.
    pub entry: Text,
    /// The place of its name.
    pub place: Place,
    /// Its inputs in the order of its header.
    pub inputs: Items<Slot>,
    /// Its outputs in the order of its header.
    pub outputs: Items<Slot>,
    /// Its statements.
    pub body: Items<TStmt>,
}
