//! Operations on elements of fixed-point arrays.
#![tactic(auto)]

mod bits;
mod complex;
mod elem;
mod laws;
mod ordering;
mod pair;
mod products;
mod signs;
mod sums;
mod whole;

pub use bits::{
    bit_and, bit_concat, bit_not, bit_or, bit_slice, bit_sll, bit_sra, bit_srl, bit_xor,
};
pub use complex::{cadd, cmul, conj, csub};
pub use elem::Elem;
pub use laws::{full_differences_are_exact, full_products_are_exact, full_sums_are_exact};
pub use ordering::compare;
pub use pair::Pair;
pub use products::mul;
pub use signs::{abs, neg};
pub use sums::{accumulate, add, sub};
