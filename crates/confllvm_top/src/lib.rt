//! The commands of the product over any store, any sinks and any releasers.
//!
//! [`confllvm`] reads the words of a command line, does what they say and answers a [`Status`]. Its
//! contract is the promise of the product: `verify` is done only with bytes that are accepted and
//! noninterfering, `run` runs no others and ends by the outcome of their run, and both refuse bytes by
//! their verdict alone; `disasm` refuses them by V1 and V2 alone, and else tells their listing.
#![tactic(auto)]

mod command;
mod law;
mod lines;
mod listing;
mod loading;
mod running;
mod status;
mod telling;
#[cfg(test)]
mod tests;
mod verifying;

pub use command::confllvm;
pub use law::one_answer;
pub use status::Status;
