//! Worked operations on elements: rounding and overflow, fimaths, sums and products, complex elements and bits.
#![tactic(auto)]

#[cfg(test)]
mod complex_bits;
#[cfg(test)]
mod complex_elements;
#[cfg(test)]
mod fimaths;
#[cfg(test)]
mod operations;
#[cfg(test)]
mod rounding_and_overflow;
