//! The rules of operators, signs and built-in functions: on operands and arguments of which types they are defined, in the order of the
//! codes of their refusals, and the types of their results. Evaluation and the walk over a source both stand on them.
#![tactic(auto)]

mod arguments;
mod asked;
mod attach_calls;
mod beside;
mod built_ins;
mod calls;
mod fi_calls;
mod fold;
mod granted;
mod limits;
mod missing;
mod names;
mod object_calls;
mod pairs;
mod properties;
mod signs;
mod ty;
mod whole;
mod work;
mod working;

pub use asked::{Asked, Stated};
pub use beside::stored;
pub use built_ins::{BuiltIn, built_in};
pub use calls::ask;
pub use fold::folded;
pub use granted::{Built, build};
pub use missing::{Missing, Shown};
pub use pairs::{Meeting, Operand, Side, Working, meet};
pub use signs::{Signed, sign};
pub use ty::{Ty, is_same};
pub use work::{Work, work_of};
pub use working::work_out;
