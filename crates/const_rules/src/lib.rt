//! Laws of constants: what the functions on exact numbers give is what the relations say.
#![tactic(auto)]

mod complex;
mod forms;
mod kept;
mod literals;
mod operators;
mod precision;

pub use complex::{
    complex_differences_are_constants, complex_negatives_are_constants,
    complex_products_are_constants, complex_sums_are_constants,
};
pub use forms::each_number_has_one_form;
pub use kept::{
    constants_are_kept, kept_complex_constants_are_answers, kept_constants_are_answers,
    kept_constants_have_one_best_fraction, kept_literals_are_answers, kept_powers_are_answers,
};
pub use literals::{decimals_are_constants, literals_are_constants};
pub use operators::{
    differences_are_constants, negatives_are_constants, powers_are_constants,
    products_are_constants, sums_are_constants,
};
pub use precision::{
    numbers_have_a_best_fraction, stored_integers_are_exact, types_store_numbers,
    whole_numbers_are_read,
};
