//! The verdict on the bytes of an image: accepted, or the rule that is broken and where.
//!
//! `verify` answers exactly the verdict. What it accepts is a `Verified`, which can be made here alone and
//! keeps in its type that its image is accepted. `list_items` answers the chain of an image's items, also
//! where a rule after V2 is broken. [`order_law`] says which listings can be labelled.
#![tactic(auto)]

mod calls;
mod first_bad;
mod law;
mod listing;
mod rule;
mod shape;
mod taint;
#[cfg(test)]
mod tests;
mod verdict;

pub use law::{one_verdict, order_law};
pub use listing::{list_items, one_listing};
pub use rule::Rule;
pub use verdict::{Counts, Verified, VerifyError, verify};
