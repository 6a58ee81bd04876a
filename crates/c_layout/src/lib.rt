//! Where the globals, strings and frames of a typed program lie, or the first limit that the program passes.
//!
//! Globals lie from offset 4096 on in the segment of their outermost qualifier, in source order, each aligned. The
//! strings follow in the public segment. A frame has its parameters, its locals and a slot of 8 bytes for each
//! expression node. [`layout`] answers exactly the layout that `specs/Layouts.antt` defines where no limit is passed,
//! and else the limit that `specs/Limits.antt` names first. Sizes and offsets are in bytes.
#![tactic(auto)]

mod counts;
mod errors;
mod frames;
mod layouts;
mod limits;
mod places;
mod program;
mod segments;
mod sums;

pub use errors::{LayoutError, LimitKind};
pub use frames::Frame;
pub use layouts::Layout;
pub use program::layout;

#[cfg(test)]
mod tests;
