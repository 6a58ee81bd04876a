//! The bytes of an instruction: the instruction table read forwards.
//!
//! `encode` answers the one spelling of an instruction, so `decode` of it gives the instruction back,
//! whatever follows, and what was decoded is written in the bytes that were read. It takes any instruction
//! that a value can hold; a shift by another count than 1 to 63 has no spelling, and its bytes decode to
//! None. `length_of` tells the number of bytes from a table of the rows. Nothing is refused, and no memory
//! is taken.
#![tactic(auto)]

mod encoding;
mod fields;
mod lengths;

pub use encoding::encode;
pub use lengths::{LONGEST, length_of};

#[cfg(test)]
mod tests;
