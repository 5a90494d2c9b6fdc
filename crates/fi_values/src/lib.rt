//! Operations on values of every class and shape: definitions, and lemmas that they keep values sound.
#![tactic(auto)]
