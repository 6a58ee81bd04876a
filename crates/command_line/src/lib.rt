//! What the words of a command line say.
//!
//! [`read_command`] reads the words after a program's name. The first word is the command's own, and clap takes the words by
//! that command's definition, an entry of one table: which word is an option or its value, where `--` ends them and which word
//! is the value of NAME are clap's rules. STEPS is a number in decimal digits, at most 1,000,000,000. `run` has five options, each
//! with the name of a file, and none of them has to be given.
//!
//! What it answers is the command that the words say. It answers [`WordsFault::Usage`] only where they say none, and
//! [`WordsFault::NoMemory`] where memory was refused, of which no contract says when that comes. Words say one command at
//! most, which is the law [`one_command`].
#![tactic(auto)]

mod definitions;
mod number;
#[cfg(test)]
mod tests;
mod words;

pub use words::{Command, RunFiles, WordsFault, one_command, read_command};
