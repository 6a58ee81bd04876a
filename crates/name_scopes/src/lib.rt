//! What names mean where.
//!
//! A [`Scope`] is seen as the list of what is declared, the latest last: a name means its latest declaration,
//! which hides those before it.
#![tactic(auto)]

mod scopes;

pub use scopes::{Entry, Meaning, Scope};

#[cfg(test)]
mod tests;
