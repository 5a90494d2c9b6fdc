//! What a case file holds, and why one is refused.

use num_type::Int;

/// Cases in order: for each the input arrays in the order of the interface, and their elements by columns.
#[derive(Drop)]
pub struct Cases {
    /// The cases.
    pub list: Vec<Vec<Vec<Int>>>,
}

/// Why a case file is refused.
#[derive(Clone, Copy, Debug, PartialEq, Eq)]
pub enum CaseBad {
    /// It isn't of the form of case files.
    Form,
    /// An element is no whole number in range.
    Value,
}

/// The refusal of a case file: the number of the bad case from 0, where there is one, and what is wrong.
#[derive(Clone, Copy, Debug, PartialEq, Eq)]
pub struct CaseRefusal {
    /// The number of the case, from 0.
    pub index: Option<u64>,
    /// What is wrong.
    pub kind: CaseBad,
}
