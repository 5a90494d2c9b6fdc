//! The tokens of C texts, and their first two lines.
#![tactic(auto)]

mod bytes;
mod kind;
mod laws;
mod length;
mod line;
mod scan;
mod slot;
mod slots;
mod text;

pub use laws::{
    interface_has_a_slot, one_interface, one_reading, one_token_list, read_to_the_end,
    tokens_are_read,
};
pub use line::{InterfaceLine, has_include, read_interface};
pub use scan::{CToken, Scanned, tokens};
