//! The types of expressions.
//!
//! [`type_of`] goes over an expression once, in source order: it gives what is known of it where it stands, its node
//! among that, and notes where a rule is broken. `type_rules` says where one is; the rules of each operator are in
//! `type_operators`.
#![tactic(auto)]

mod expressions;

pub use expressions::{string_size, type_of};
