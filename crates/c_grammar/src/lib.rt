//! The grammar of the function of a C text, over words.
#![tactic(auto)]

mod laws;
mod same;
mod word;

pub use laws::{
    at_most_one_program, at_most_one_sentence, every_list_is_decided, machine_decides, one_refusal,
    one_word, texts_go_by_words, words_are_spelled,
};
pub use same::same_word;
pub use word::{CKeyword, CMacro, CSign, CWordToken};
