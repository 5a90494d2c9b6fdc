//! What was read of a file, and what waits for the rest.

use crate::body::{Cases, Funcs, Header, Steps};
use crate::part::{Compound, Given, Grid, Line, Part};
use fic_base::{Place, Text};
use mat_ast::{BinOp, Ident, UnOp};
use mat_grammar::Mode;
use sqlite_items::Items;

/// A name with its open parenthesis.
#[derive(Drop)]
pub struct Opened {
    /// The place of the name.
    pub place: Place,
    /// The name.
    pub text: Text,
    /// The place of the parenthesis.
    pub opens: Place,
}

/// What of an expression waits for the operand that is read.
#[derive(Drop)]
pub enum Frame {
    /// A sign.
    Sign(Place, UnOp),
    /// A sign of an exponent.
    ExponentSign(Place, UnOp),
    /// A left operand and its operator.
    Right(Place, BinOp, Part),
    /// A parenthesis.
    Inside(Place),
    /// A name with its parenthesis, and the arguments before.
    Call(Opened, Given),
    /// A range with its first part.
    To(Place, Part),
    /// A range with its first part and its step.
    ByTo(Place, Part, Part),
    /// A bracket with the rows before, and the elements before of this row.
    Cells(Place, Grid, Line),
}

/// An open block, with the statements before it.
#[derive(Drop)]
pub enum Body {
    /// An arm of an `if`, with the arms before and its condition.
    If(Steps, Place, Cases, Part),
    /// An `else`, with the arms before.
    Else(Steps, Place, Cases),
    /// The body of a `while`.
    While(Steps, Place, Part),
    /// The body of a `for`.
    For(Steps, Place, Ident, Part),
}

/// The open blocks of a function, the innermost last, and the functions before it.
#[derive(Drop)]
pub struct Around {
    /// The open blocks.
    pub bodies: Items<Body>,
    /// Whether the functions before have their `end`.
    pub mode: Mode,
    /// The functions before.
    pub done: Funcs,
    /// The front of this function.
    pub header: Header,
}

/// The parentheses of a name that belong to a statement.
#[derive(Drop)]
pub enum Use {
    /// The subscripts of an assignment.
    Target(Steps, Around),
    /// The arguments of a call that is assigned to a bracket of names.
    Callee(Steps, Items<Ident>, Around),
}

/// What a whole expression is for.
#[derive(Drop)]
pub enum Purpose {
    /// The value of an assignment.
    Assign(Steps, Ident, Around),
    /// The value of an assignment to subscripts.
    Store(Steps, Ident, Place, Given, Around),
    /// The condition of an arm, with the arms before.
    Arm(Steps, Place, Cases, Around),
    /// The condition of a `while`.
    While(Steps, Place, Around),
    /// The range of a `for`.
    For(Steps, Place, Ident, Around),
    /// An argument, with the arguments before.
    Argument(Use, Opened, Given),
}

/// What waits for an operand: the frames, the innermost last, and what their expression is for.
#[derive(Drop)]
pub struct Pending {
    /// The frames.
    pub frames: Items<Frame>,
    /// What the expression is for.
    pub purpose: Purpose,
}

/// Whose parentheses are read.
#[derive(Drop)]
pub enum Caller {
    /// An operand's.
    Value(Pending),
    /// A statement's.
    Statement(Use),
}

/// Whose bracket of names is read.
#[derive(Drop)]
pub enum Lister {
    /// The outputs of a function.
    Outputs(Mode, Funcs),
    /// The targets of an assignment.
    Targets(Steps, Around),
}

/// What was read last.
#[derive(Drop)]
pub enum Reading {
    /// An operand has to come.
    Need(Pending),
    /// The parenthesis of a name was opened.
    Begun(Caller, Opened),
    /// A colon was read as an argument.
    Listed(Caller, Opened, Given),
    /// Between the rows of a bracket.
    Between(Place, Grid, Pending),
    /// Behind a comma between the rows of a bracket.
    Bare(Place, Grid, Pending),
    /// Behind a comma in a row.
    Gap(Place, Grid, Line, Pending),
    /// An operand was read that is no name alone.
    Have(Compound, Pending),
    /// A name was read as an operand.
    HaveName(Place, Text, Pending),
    /// A statement may come.
    Within(Steps, Around),
    /// Behind a statement.
    After(Steps, Around),
    /// Behind the first name of a statement.
    Named(Steps, Ident, Around),
    /// Behind the subscripts of a target.
    Subscripted(Steps, Ident, Place, Given, Around),
    /// Behind a bracket of targets.
    Targeted(Steps, Items<Ident>, Around),
    /// Behind its `=`.
    Calling(Steps, Items<Ident>, Around),
    /// Behind the name of a call that is assigned to a bracket of names.
    Called(Steps, Items<Ident>, Place, Text, Around),
    /// Behind `for`.
    Looping(Steps, Place, Around),
    /// Behind the variable of a `for`.
    Looped(Steps, Place, Ident, Around),
    /// In a bracket of names, before the names.
    Edge(Lister),
    /// Behind a comma there.
    EdgeComma(Lister),
    /// Behind a name of a bracket.
    Listing(Lister, Items<Ident>),
    /// Behind a comma after a name.
    ListComma(Lister, Items<Ident>),
    /// Behind a separator after a name.
    ListNext(Lister, Items<Ident>),
    /// Behind the names and a row end.
    Tail(Lister, Items<Ident>),
    /// Behind a comma there.
    TailComma(Lister, Items<Ident>),
    /// Between functions.
    Top(Mode, Funcs),
    /// Behind `function`.
    Heading(Mode, Funcs),
    /// Behind the outputs.
    HeadOut(Mode, Funcs, Items<Ident>),
    /// Behind their `=`.
    HeadEqual(Mode, Funcs, Items<Ident>),
    /// Behind the name of a function.
    HeadName(Mode, Funcs, Items<Ident>, Ident),
    /// Behind the parenthesis of the inputs.
    Params(Mode, Funcs, Items<Ident>, Ident),
    /// Behind an input.
    Param(Mode, Funcs, Header),
    /// Behind a comma after an input.
    ParamComma(Mode, Funcs, Header),
    /// Behind the inputs.
    Headed(Mode, Funcs, Header),
    /// Behind the end.
    Complete(Funcs),
}
