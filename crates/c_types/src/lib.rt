//! The types of a C source.
//!
//! [`type_program`] gives the typed tree of a program, or the least place where a typing rule is broken and the
//! lowest rule there. `type_rules` says where a rule is broken and what the typed tree is; the code goes over a
//! program once, in source order, with what is known and what was noted.
#![tactic(auto)]

mod globals;
mod program;

pub use program::type_program;
pub use type_rules::{TypeError, one_answer};
