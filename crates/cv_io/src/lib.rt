//! Files, bytes and releasers outside the program, as contracts see them.
//!
//! A [`Store`] is files under names, and a [`Sink`] takes bytes. Either may tell what it holds, as a
//! map of names to bytes and as a list of bytes, or tell nothing, as real files and standard output
//! do. Either counts its faults: a call that answers `Failed` has raised that count.
//!
//! A [`Trusted`] releaser is asked with private bytes, and answers bytes that may become public. It
//! always tells what it was asked and what it answered, and it counts its faults too. Each class of
//! releases may have a releaser of its own: [`is_held`] says whether it has one, and [`ask`] asks it.
//!
//! [`MemStore`] and [`MemSink`] hold all in memory, tell it, and fail at the calls that they are given.
//! [`XorPad`] answers by a pad in memory, and fails at such calls and where the pad is used up.
#![tactic(auto)]

mod classes;
mod memory_releaser;
mod memory_sink;
mod memory_store;
mod releaser;
mod sink;
mod store;
#[cfg(test)]
mod tests;

pub use classes::{ask, is_held};
pub use memory_releaser::XorPad;
pub use memory_sink::MemSink;
pub use memory_store::MemStore;
pub use releaser::{TrustFault, Trusted};
pub use sink::{Sink, SinkError};
pub use store::{LONGEST_LOAD, Store, StoreError};
