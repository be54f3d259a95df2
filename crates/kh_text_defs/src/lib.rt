//! The text of terms and forms: the definitions that reading, printing and answering share, and the tests of words.
#![tactic(auto)]

mod mode;
#[cfg(test)]
mod tests;
mod words;

pub use mode::Mode;
pub use words::{is_plain, is_plain_word, is_reserved, is_word_byte};
