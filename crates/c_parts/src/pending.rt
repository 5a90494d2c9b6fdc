//! What was read of a function, and what is open.

use c_grammar::CWordToken;
use c_tree::{CArray, CExpr, COp, CRel, CStmt, CWord};
use sqlite_items::Items;

/// Which types may come.
#[derive(Clone, Copy, Debug, PartialEq, Eq)]
pub enum Wanted {
    /// Each.
    Any,
    /// This one.
    Only(CWord),
}

/// What an expression is for.
#[derive(Drop)]
pub enum Purpose {
    /// The value of a variable of this type.
    ValueOf(u32, CWord),
    /// The subscript of a store.
    PlaceOf(CArray),
    /// The value of a store, behind its subscript.
    ElementOf(CArray, CExpr),
}

/// What is open round an expression.
#[derive(Drop)]
pub enum Frame {
    /// A parenthesis that may open an operation or a choice, where such a type is wanted.
    First(Wanted),
    /// A cast.
    InCast(CWord),
    /// The subscript of an element.
    InElement(CArray),
    /// A negation.
    InNeg,
    /// An operator behind its left operand, with the types of both.
    InBinary(COp, CExpr, CWord, CWord),
    /// A relation behind its left side, with its type.
    InTest(Wanted, CRel, CExpr, CWord),
    /// The first arm of a choice, behind its test.
    InThen(CRel, CExpr, CExpr, CWord),
    /// The second arm of a choice, behind its test and the first arm.
    InElse(CRel, CExpr, CExpr, CWord, CExpr, CWord),
}

/// The types of the variables, and the statements so far.
#[derive(Drop)]
pub struct Past {
    pub words: Items<CWord>,
    pub done: Items<CStmt>,
}

/// What waits for an operand: the frames, the innermost last, what their expression is for, and what was read before.
#[derive(Drop)]
pub struct Pending {
    pub frames: Items<Frame>,
    pub purpose: Purpose,
    pub past: Past,
}

/// What was read last.
#[derive(Drop)]
pub enum Reading {
    /// A declaration may come.
    Declare(Items<CWord>),
    /// A statement may come.
    Within(Past),
    /// The number of a status has to come.
    Status(Past),
    /// An operand has to come.
    Need(Wanted, Pending),
    /// The number of a constant has to come.
    Digits(CWord, Pending),
    /// Behind a parenthesis.
    Opened(Wanted, Pending),
    /// Behind a type in parentheses.
    Casting(CWord, Pending),
    /// Behind an operand.
    Have(CExpr, CWord, Pending),
    /// Behind the closing brace of the function.
    Whole(Past),
}

/// What was read, and the words that have to come before it holds: those from an index on.
#[derive(Drop)]
pub struct Reader {
    pub words: Items<CWordToken>,
    pub at: usize,
    pub reading: Reading,
}
