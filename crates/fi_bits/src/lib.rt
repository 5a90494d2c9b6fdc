//! Bits of stored integers by their places, and operations on the bits of complex elements.
#![tactic(auto)]

mod complex;
mod laws;

pub use complex::{cbit_not, cbit_slice, cbit_sll, cbit_sra, cbit_srl};
pub use laws::{
    bits_decide, bits_stand_for_integers, complements_turn_bits, concatenations_keep_bits,
    left_shifts_move_bits, pairs_of_bits_join, right_shifts_move_bits, sign_shifts_move_bits,
    slices_keep_bits,
};
