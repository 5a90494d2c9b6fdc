//! What a run answers.

ghost use Rattle.std.specs.Prelude.{map};
ghost use Rattle.c_tree.specs.Meaning.{State};
ghost use Rattle.c_tree.specs.Run.{result_of};
ghost use Rattle.c_run.specs.View.{flow_told};
ghost use Rattle.c_run.specs.Ran.{IsRan};

use crate::flow::Flow;
use crate::ran::Ran;

/// The answer to a function's statements that end so. A function that ends without a return is undefined at its closing brace (ISO/IEC
/// 9899:1999, 6.9.1), which is the token of this number.
pub fn answer(flow: Flow, closing: u64) -> Ran
    ensures { (st : State) → IsRan (result_of closing (flow_told flow st)) result (map (λ cells. cells.items) st.outputs) }
{
    match flow {
        Flow::Went => Ran::Undefined(closing),
        Flow::Broke => Ran::Undefined(closing),
        Flow::Continued => Ran::Undefined(closing),
        Flow::Returned(status) => Ran::Ended(status.number()),
        Flow::Over => Ran::Over,
        Flow::Undefined(token) => Ran::Undefined(token),
    }
}
