//! The constraints on the qualifiers of a typed source, in source order.
//!
//! [`constraints`] answers them. `specs/Flows.antt` says what may make each expression's value private and what its
//! kind asks for, `specs/Levels.antt` how two types are compared level by level, and `specs/Rules.antt` in which order
//! they come.
#![tactic(auto)]

mod expressions;
mod flow;
mod levels;
mod statements;

pub use flow::Source;
pub use statements::constraints;

#[cfg(test)]
mod tests;
