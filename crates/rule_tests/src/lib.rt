//! Worked rules of types, and the texts that refusals show.
#![tactic(auto)]

#[cfg(test)]
mod rules;
#[cfg(test)]
mod texts;
