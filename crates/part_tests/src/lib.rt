//! Parts of C that operations are lowered to, run on worked elements.
#![tactic(auto)]

#[cfg(test)]
mod cases;
#[cfg(test)]
mod comparisons;
#[cfg(test)]
mod conversions;
#[cfg(test)]
mod operations;
