//! What stays the same while a function is walked: its variables, the functions of its file, and the refusals that rest on these alone.
#![tactic(auto)]

mod headers;
mod name_set;
mod names;
mod rules;
mod scope;
mod targets;

pub use headers::check_headers;
pub use name_set::NameSet;
pub use names::{is_division, is_supported, is_unsupported};
pub use rules::{rule_of_one, rule_of_pair};
pub use scope::{
    Scope, arg_count, fraction_out, is_free, is_function, is_variable, refused, text_at,
    too_many_nodes, too_wide, unbuilt,
};
pub use targets::variables_of;
