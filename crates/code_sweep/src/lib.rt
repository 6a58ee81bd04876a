//! A code as one chain of items: words, check units and plain instructions.
//!
//! `sweep` answers the chain that begins at the code's first byte, or the first place in it where no item
//! begins. At a place stands a word if one begins there, else a return unit, else a call unit, else the
//! instruction that decodes there, unless it is one of the three that belong to check units alone.
#![tactic(auto)]

mod item;
mod place;
mod sweeping;
mod unit;

pub use item::{Item, Listing, Placed};
pub use place::item_at;
pub use sweeping::{SweepError, sweep};

#[cfg(test)]
mod tests;
