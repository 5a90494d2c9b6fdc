//! Arguments as they are evaluated.

ghost use Rattle.std.specs.Prelude.{◌≡◌, [], map, OnOk, false};
ghost use Rattle.eval_value.specs.Tells.{Tells};
ghost use Rattle.eval_value.specs.View.{item_view};
ghost use Rattle.eval_call.specs.View.{argument_view};
ghost use Rattle.eval_source.specs.Items as items;

use eval_call::Argument;
use eval_value::{Halt, Value};
use fic_base::Place;
use num_type::Memory;
use sqlite_items::Boxed;
use std::alloc::Global;

/// The arguments of a call so far.
#[derive(Drop)]
pub struct Passed {
    /// The arguments, but for each `:`.
    pub arguments: Vec<Argument>,
    /// Whether a `:` stood among them.
    pub colon: bool,
}

impl Passed {
    ghost use Rattle.eval_source.specs.Items.{passed_view};

    /// None yet.
    pub fn new(alloc: Global) -> Passed
        ensures { passed_view result ≡ record { arguments = []; colon = false } }
    {
        Passed {
            arguments: Vec::new(alloc),
            colon: false,
        }
    }

    /// Adds an argument, none for `:`. Want of memory is the only refusal.
    #[tactic(auto, unfolding(crate::specs::Items::with_item))]
    pub fn push(&mut self, item: Option<Boxed<Value>>, is_word: bool) -> Result<(), Memory>
        ensures { OnOk result (passed_view self.new ≡ items.with_item (passed_view self.old) (item_view item) is_word) }
    {
        match item {
            None => {
                self.colon = true;
                Ok(())
            }
            Some(value) => {
                let value = value.into_inner();
                self.arguments.push(Argument { value, is_word })?;
                Ok(())
            }
        }
    }

    /// The arguments. Wrong at the place of the call where a `:` stood among them.
    #[tactic(auto, using(crate::proofs::Calls::all_passed, crate::proofs::Calls::colon_passed))]
    pub fn close(self, at: Place) -> Result<Vec<Argument>, Halt>
        ensures { Tells result (λ v. map argument_view v.items) (items.closed at (passed_view self) []) }
    {
        if self.colon {
            Err(Halt::Wrong(at))
        } else {
            Ok(self.arguments)
        }
    }
}
