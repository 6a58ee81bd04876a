//! The least assignment of taints to variables that satisfies a list of constraints, or the chain that shows why none does.
//!
//! A constraint says that what is private at its left end is private at its right end too. [`solve`] answers the
//! assignment that satisfies the list and is private only where every one that does is. Where none does, the error
//! names the first constraint that must break, and the shortest chain of constraints that leads to it from the constant
//! private. [`one_answer`] says that a list has one such answer at most. Nothing recurses.
#![tactic(auto)]

mod chain;
mod constraint;
mod graph;
mod law;
mod leak;
mod nodes;
mod search;
mod solver;

pub use constraint::Constraint;
pub use law::one_answer;
pub use leak::{Chain, SolveError};
pub use solver::solve;

#[cfg(test)]
mod tests;
