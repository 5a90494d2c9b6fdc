//! What a case comes to.

use num_type::Int;

/// What a case comes to.
#[derive(Drop)]
pub enum CaseResult {
    /// It ends, and the output arrays hold these lists: one for each array, in the order of the interface.
    Ends(Vec<Vec<Int>>),
    /// It ends with a fault, the status of the program.
    Fault(u32),
    /// A loop passes the bound of turns.
    Over,
    /// An operation is undefined, at the token of this number.
    Undefined(u64),
}
