//! The trees of source files.
//!
//! An operator stands at its own place, a call or a subscript at its name, a range at its first colon, a bracket and a parenthesis at
//! their opening, a literal at its first byte, and a statement that begins with a keyword at that keyword.

use fic_base::{Place, Text};
use sqlite_items::{Boxed, Items};

/// The signs before an operand.
#[derive(Clone, Copy, Debug, PartialEq, Eq)]
pub enum UnOp {
    /// `+`.
    Plus,
    /// `-`.
    Minus,
    /// `~`.
    Not,
}

/// The transposes behind an operand.
#[derive(Clone, Copy, Debug, PartialEq, Eq)]
pub enum PostOp {
    /// `'`, which conjugates.
    CTranspose,
    /// `.'`.
    Transpose,
}

/// The operators between two operands, but for the colon.
#[derive(Clone, Copy, Debug, PartialEq, Eq)]
pub enum BinOp {
    /// `||`.
    OrOr,
    /// `&&`.
    AndAnd,
    /// `|`.
    Or,
    /// `&`.
    And,
    /// `==`.
    Eq,
    /// `~=`.
    Ne,
    /// `<`.
    Lt,
    /// `<=`.
    Le,
    /// `>`.
    Gt,
    /// `>=`.
    Ge,
    /// `+`.
    Add,
    /// `-`.
    Sub,
    /// `*`.
    Mul,
    /// `.*`.
    ElemMul,
    /// `/`.
    Div,
    /// `./`.
    ElemDiv,
    /// `\\`.
    LeftDiv,
    /// `.\\`.
    ElemLeftDiv,
    /// `^`.
    Pow,
    /// `.^`.
    ElemPow,
}

/// A name of a function or a variable where it is written.
#[derive(Debug, Drop)]
pub struct Ident {
    /// Its bytes.
    pub text: Text,
    /// Its first byte.
    pub place: Place,
}

/// An expression.
#[cycle(ast)]
#[derive(Drop)]
pub struct Expr {
    /// Where it stands.
    pub place: Place,
    /// What it is.
    pub kind: ExprKind,
}

/// The kinds of expressions.
#[cycle(ast)]
#[derive(Drop)]
pub enum ExprKind {
    /// A number.
    Number {
        /// Its text without an `i` or `j`.
        text: Text,
        /// Whether it has an `i` or `j`.
        imaginary: bool,
    },
    /// A text without its quotes, in which a doubled quote is one.
    Words(Text),
    /// A name alone.
    Name(Text),
    /// A name with parentheses: a call, or a variable with subscripts.
    Apply {
        /// The name.
        name: Text,
        /// The opening parenthesis.
        paren: Place,
        /// What stands in the parentheses.
        args: Items<Arg>,
    },
    /// `end` as a subscript.
    End,
    /// A sign and its operand.
    Unary(UnOp, Boxed<Expr>),
    /// An operator and its operands.
    Binary(BinOp, Boxed<Expr>, Boxed<Expr>),
    /// An operand and its transpose.
    Post(PostOp, Boxed<Expr>),
    /// A range.
    Range {
        /// The first bound.
        first: Boxed<Expr>,
        /// The step, where one is written.
        step: Option<Boxed<Expr>>,
        /// The last bound.
        last: Boxed<Expr>,
    },
    /// An expression in parentheses.
    Paren(Boxed<Expr>),
    /// A bracket, by rows.
    Matrix(Items<Row>),
}

/// What stands in the parentheses of a name.
#[cycle(ast)]
#[derive(Drop)]
pub enum Arg {
    /// `:`, all elements.
    All,
    /// An expression.
    Item(Expr),
}

/// A row of a bracket.
#[cycle(ast)]
#[derive(Drop)]
pub struct Row {
    /// Its elements.
    pub cells: Items<Expr>,
}

/// A statement.
#[cycle(stmt)]
#[derive(Drop)]
pub enum Stmt {
    /// An assignment to a variable.
    Assign {
        /// The variable.
        name: Ident,
        /// What it becomes.
        value: Expr,
    },
    /// An assignment to subscripts of a variable.
    Store {
        /// The variable.
        name: Ident,
        /// The opening parenthesis.
        paren: Place,
        /// The subscripts.
        args: Items<Arg>,
        /// What the elements become.
        value: Expr,
    },
    /// An assignment of a call's outputs to several variables.
    Multi {
        /// The variables.
        targets: Items<Ident>,
        /// The call, or a name alone.
        call: Expr,
    },
    /// An `if`.
    If {
        /// Its keyword.
        place: Place,
        /// The arm of the `if` and those of each `elseif`.
        arms: Items<Arm>,
        /// The block of the `else`, where there is one.
        other: Option<Items<Stmt>>,
    },
    /// A `for`.
    For {
        /// Its keyword.
        place: Place,
        /// The loop variable.
        name: Ident,
        /// What it runs over.
        range: Expr,
        /// What is done for each item.
        body: Items<Stmt>,
    },
    /// A `while`.
    While {
        /// Its keyword.
        place: Place,
        /// What is asked before each turn.
        condition: Expr,
        /// What is done in each turn.
        body: Items<Stmt>,
    },
    /// A `break` at its place.
    Break(Place),
    /// A `continue` at its place.
    Continue(Place),
}

/// A condition and what it guards.
#[cycle(stmt)]
#[derive(Drop)]
pub struct Arm {
    /// The condition.
    pub condition: Expr,
    /// What is done where it holds.
    pub body: Items<Stmt>,
}

/// A function of a file.
#[derive(Drop)]
pub struct Func {
    /// Its name.
    pub name: Ident,
    /// Its inputs in the order of its header.
    pub inputs: Items<Ident>,
    /// Its outputs in the order of its header.
    pub outputs: Items<Ident>,
    /// Its statements.
    pub body: Items<Stmt>,
}
