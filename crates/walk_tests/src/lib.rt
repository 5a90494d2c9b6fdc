//! Trees of C that small functions are lowered to.
#![tactic(auto)]

#[cfg(test)]
mod files;
#[cfg(test)]
mod functions;
#[cfg(test)]
mod operations;
