//! The words that mark procedures and returns, and every occurrence of their prefix.
//!
//! A word is 8 bytes: a taint byte, a kind byte and the image's prefix of six bytes. `read_word` answers the
//! word that begins at a place, and None exactly where none does; `occurrences` answers every place where
//! the prefix stands, overlapping ones too, in order.
#![tactic(auto)]

mod occurrence;
mod word;

pub use occurrence::occurrences;
pub use word::{Word, call_word, read_word, return_word};

#[cfg(test)]
mod tests;
