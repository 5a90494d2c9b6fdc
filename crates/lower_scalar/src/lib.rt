//! C expressions that compute operations on fixed-point numbers exactly and reach nothing undefined.
#![tactic(auto)]

mod fits;
mod numbers;
mod parts;
mod quantise;
mod raises;
mod rounds;
mod signs;

pub use fits::least;
pub use numbers::{ones, power, top};
pub use parts::{alone, over_one, three_sets, two_sets};
pub use quantise::{lower_quantise, quantise_part};
pub use raises::raise;
pub use rounds::{far_floor, floor_shift, low_bits};
pub use signs::{below_zero, bits_of, choose_less, constant, minus_one, resigned, word_for};
