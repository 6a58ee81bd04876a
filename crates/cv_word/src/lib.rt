//! Words of 1, 4 and 8 bytes, the state of a core, and what every crate above shares.
//!
//! A word is a list of bytes whose lowest comes first, and sums of words are taken modulo 2^64. The
//! contracts here are equations with the definitions of `specs/`, which the crates above cite too.
#![tactic(auto)]

mod call_bits;
mod fault;
mod gates;
mod items;
mod memory_map;
mod no_memory;
mod registers;
mod steps;
mod words;

pub use call_bits::{may_pass_private, result_bit};
pub use fault::FaultKind;
pub use gates::{Arguments, Gate, gate_bits};
pub use items::copy_items;
pub use memory_map::{CODE_BASE, PRIVATE_BASE, PUBLIC_BASE};
pub use no_memory::NoMemory;
pub use registers::{Flags, Registers, Taint};
pub use steps::Steps;
pub use words::{le32, le64, put_le, sext};
