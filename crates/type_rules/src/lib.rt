//! The typing rules of C sources.
//!
//! `specs/Programs.antt` says where a typing rule is broken and what the typed tree of a program is. Its modules
//! go over a program in source order, once its functions are known, with what is known (`known.rt`) and what was
//! noted (`notes.rt`). `src/rules.rt` is the table of the rules.
//!
//! [`one_answer`] says that a program has one typed tree at most, or one rule that is broken at the least place.
//! The code reads types as they are written: their shapes, sizes and qualifiers, with the rules that they break.
#![tactic(auto)]

pub mod declarations;
pub mod errors;
pub mod files;
pub mod frames;
pub mod known;
mod laws;
pub mod notes;
pub mod operators;
pub mod parts;
pub mod rules;
pub mod written;

pub use errors::TypeError;
pub use laws::one_answer;
