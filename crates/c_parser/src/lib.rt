//! The program that a list of tokens is, or the token at fault.
//!
//! `parse` answers it. `specs/Programs.antt` says what the program of a source is, with its names and strings
//! by number, and what its fault is; the grammar itself is the crate `c_grammar`. `one_answer` says that no two
//! answers fit the same tokens.
#![tactic(auto)]

mod declarators;
mod errors;
mod expressions;
mod items;
mod laws;
mod members;
mod objects;
mod operators;
mod parsing;
mod program;
mod spot;
mod statements;
mod structures;
mod terminals;
mod tokens_words;
mod type_names;
mod types;

pub use errors::ParseError;
pub use laws::one_answer;
pub use parsing::parse;
