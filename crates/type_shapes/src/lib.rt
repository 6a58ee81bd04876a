//! What types are alike: sorts of types, types of one shape, and what types take.
//!
//! The shape of a type is the type without its qualifiers. Sizes are in bytes.
#![tactic(auto)]

pub mod sizes;
pub mod types;

pub use sizes::Extent;
