//! Arguments of calls.

ghost use Rattle.std.specs.Prelude.{◌≡◌, IfOk, true};
ghost use Rattle.fi_meaning.specs.Calls as calls;
ghost use Rattle.eval_value.specs.View.{logical_view, value_view};
ghost use Rattle.eval_call.specs.View.{word_truth};

use eval_bits::truth_number;
use eval_value::{LogicalValue, Value, make_number};
use num_type::Memory;
use std::alloc::Global;

/// An argument of a call.
#[derive(Drop)]
pub struct Argument {
    /// Its value.
    pub value: Value,
    /// Whether it is the word `true` or `false` itself, which stands for 1 or 0 where a constant is wanted.
    pub is_word: bool,
}

/// The value that an argument has where a constant is wanted. Want of memory is the only refusal.
#[tactic(auto, using(crate::proofs::Arguments::own_value))]
pub fn constant_value(alloc: Global, a: &Argument) -> Result<Value, Memory>
    ensures { IfOk result (λ r. value_view r ≡ calls.constant_value (value_view a.now.value) a.now.is_word) }
{
    match truth_of_word(a) {
        Some(truth) => {
            let v = make_number(alloc, truth_number(truth))?;
            Ok(v)
        }
        None => {
            let v = a.value.copied(alloc)?;
            Ok(v)
        }
    }
}

/// What the word `true` or `false` itself is as an argument.
#[tactic(auto, using(crate::proofs::Arguments::no_word, crate::proofs::Arguments::other_word))]
pub fn truth_of_word(a: &Argument) -> Option<bool>
    ensures { result ≡ word_truth (value_view a.now.value) a.now.is_word }
{
    if a.is_word {
        match &a.value {
            Value::Logical(v) => single_truth(v),
            _ => None,
        }
    } else {
        None
    }
}

// The single element of a logical value.
#[tactic(auto, using(crate::proofs::Arguments::one_truth, crate::proofs::Arguments::more_truths))]
fn single_truth(v: &LogicalValue) -> Option<bool>
    ensures { result ≡ word_truth (logical_view v.now) true }
{
    if v.truths.len() == 1 {
        Some(v.truths[0])
    } else {
        None
    }
}
