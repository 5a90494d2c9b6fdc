//! What a source evaluates to.
#![tactic(auto)]
