//! What every layer names: places in a source, codes of refusals, refusals, texts, and names.
#![tactic(auto)]

mod code;
mod name;
mod place;
mod refusal;
mod text;

pub use code::Code;
pub use name::{is_digit, is_keyword, is_letter, is_name, is_name_byte};
pub use place::Place;
pub use refusal::Refusal;
pub use text::Text;
