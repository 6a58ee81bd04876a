//! The types of a program's locals as text.
//!
//! [`local_lines`] writes a line for each local, `FUNCTION.NAME: TYPE`: `private ` where the base is private, the
//! base, ` *` for each pointer and ` private` behind a private one, and ` [N]` for an array. A pointer to a function is
//! its result, ` (*)`, and the parameters in brackets.
#![tactic(auto)]

mod texts;

pub use texts::local_lines;

#[cfg(test)]
mod tests;
