//! How a statement ends.

ghost use Rattle.std.specs.Prelude.{◌≡◌, ◌<◌, ◌^◌, pos};
ghost use Rattle.c_tree.specs.Outcome.{Outcome, bind};
ghost use Rattle.c_tree.specs.Meaning;
ghost use Rattle.c_run.specs.View.{flow_told, left_or};

use std::marker::Model;

/// A status that a program gives, below 2^31.
#[derive(Clone, Copy, Drop)]
pub struct Status {
    number: u32,
}

impl Model for Status {
    ghost use Rattle.std.specs.Prelude.{ℕ, ◌<◌, ◌^◌};

    ghost Value = { ℕ };

    ghost view = { λ s. s.number };

    ghost invariant = { λ s. s.number < 2 ^ 31 };

    ghost inverse = { λ n. record { number = n } };
}

impl Status {
    /// The status of this number.
    pub fn of(number: u32) -> Status
        requires { number < 2 ^ 31 }
        ensures { result ≡ number }
    {
        Status { number }
    }

    /// Its number.
    pub fn number(self) -> i32
        ensures { result ≡ pos self }
    {
        self.number as i32
    }
}

/// How a statement ends (ISO/IEC 9899:1999, 6.8.6): it goes on, leaves a loop, goes on with the next turn, gives a status, passes the
/// bound of a loop, or is undefined at the token of this number.
#[derive(Clone, Copy, Drop)]
pub enum Flow {
    Went,
    Broke,
    Continued,
    Returned(Status),
    Over,
    Undefined(u64),
}

/// How statements end behind a statement that ends so; None where the next one runs.
#[tactic(auto, unfolding(c_tree::specs::Outcome::bind))]
pub fn then_run(flow: Flow) -> Option<Flow>
    ensures { (st : Meaning.State) (next : Meaning.State → Outcome Meaning.Flow) → left_or result next st ≡ bind (flow_told flow st) (λ f. Meaning.then_run f next) }
{
    match flow {
        Flow::Went => None,
        Flow::Broke => Some(Flow::Broke),
        Flow::Continued => Some(Flow::Continued),
        Flow::Returned(status) => Some(Flow::Returned(status)),
        Flow::Over => Some(Flow::Over),
        Flow::Undefined(token) => Some(Flow::Undefined(token)),
    }
}

/// How a loop ends behind a turn that ends so; None where the next turn runs.
#[tactic(auto, unfolding(c_tree::specs::Outcome::bind))]
pub fn after_turn(flow: Flow) -> Option<Flow>
    ensures { (st : Meaning.State) (next : Meaning.State → Outcome Meaning.Flow) → left_or result next st ≡ bind (flow_told flow st) (λ f. Meaning.after_turn f next) }
{
    match flow {
        Flow::Went => None,
        Flow::Continued => None,
        Flow::Broke => Some(Flow::Went),
        Flow::Returned(status) => Some(Flow::Returned(status)),
        Flow::Over => Some(Flow::Over),
        Flow::Undefined(token) => Some(Flow::Undefined(token)),
    }
}
