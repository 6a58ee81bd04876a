//! The x86-64 instructions of this machine, their one spelling each, and how they are read.
//!
//! `decode` answers the instruction that stands at a place of the code, and None exactly where no row of
//! the instruction table fits there. The table is the function `spelling` of `specs/Spelling.antt`, by the
//! Intel manual's names; `table_law` says that the reading of bytes is that table read backwards.
#![tactic(auto)]

mod decoding;
mod instr;
mod law;

pub use decoding::{decode, register};
pub use instr::{AluOp, Cond, Instr, Mem, Reg, Seg, ShiftOp, Width};
pub use law::table_law;

#[cfg(test)]
mod tests;
