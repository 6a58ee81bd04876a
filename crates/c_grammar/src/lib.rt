//! The grammar of C sources: what a reading of a list of words is, how deep it nests each word, what it
//! builds, and which word is at fault where words are no program.
//!
//! Words are tokens as the grammar sees them. Words with which some program begins are a front of it (a
//! viable prefix). `specs/Grammar.antt` is the grammar, a rule for each form, `specs/Reading.antt` says what
//! readings and fronts are, and `specs/Faults.antt` which word is at fault. The laws say that words are one
//! program at most, that a program that nests no word too deep has no fault, and that words have one fault at
//! most.
#![tactic(auto)]

mod laws;
mod words;

pub use laws::{one_fault, one_program, program_has_no_fault};
pub use words::{Terminal, Word};
