//! Worked sources: their trees, tokens and grammar.
#![tactic(auto)]

#[cfg(test)]
mod grammar;
#[cfg(test)]
mod source_tokens;
#[cfg(test)]
mod trees;
