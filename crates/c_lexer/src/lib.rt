//! The tokens of a C source.
//!
//! `lex` answers the tokens from left to right, each the longest that stands at its place, or the
//! first place where no token begins. The definitions of `specs/` say how a token of each kind is
//! spelled and how a source falls into tokens, spaces and comments; `one_reading` says that each
//! source has one list of tokens, or one such place, and not both. `tokens_lie_in_source` says where
//! tokens lie, and `string_bytes` what a string stands for.
#![tactic(auto)]

mod bytes;
mod comments;
mod lexer;
mod numbers;
mod quoted;
mod signs;
mod tokens;
mod words;

pub use lexer::{lex, one_reading, tokens_lie_in_source};
pub use quoted::{one_string, string_bytes};
pub use tokens::{LexError, Token, TokenKind};

#[cfg(test)]
mod tests;
