//! Case files and result lines.
#![tactic(auto)]

mod decimal_text;
mod json_text;
mod line;
mod member;
mod outputs;
mod plain;
mod range;
mod ranges;
mod refusal;
mod result;
mod result_line;

pub use plain::read_cases;
pub use refusal::{CaseBad, CaseRefusal, Cases};
pub use result::CaseResult;
pub use result_line::line_of;
