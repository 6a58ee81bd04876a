//! One core: results and flags, and what one instruction does.
//!
//! `step` lets the instruction at a core's program counter take effect, exactly as the function
//! `core_step` of `specs/CoreStep.antt` says, which has a row for each instruction. It answers None where
//! the core goes on and the fault where it doesn't; a fault changes neither registers nor memory. Nothing here takes memory.
#![tactic(auto)]

mod arithmetic;
mod core_step;
mod division;
mod registers;

pub use arithmetic::{alu, holds, multiply, negate, shift};
pub use core_step::{execute, step};
pub use division::divide;

#[cfg(test)]
mod tests;
