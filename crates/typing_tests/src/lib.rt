//! Tests of the typing rules over whole sources.
//!
//! They stand above `c_parser` and `c_types`, so that each is proved once without them. A row is a rule and a source,
//! with `@` before the byte at which the rule is told.
#![tactic(auto)]

#[cfg(test)]
mod files;
#[cfg(test)]
mod long_sources;
#[cfg(test)]
mod names;
#[cfg(test)]
mod operands;
#[cfg(test)]
mod rows;
#[cfg(test)]
mod statements;
#[cfg(test)]
mod trees;
#[cfg(test)]
mod types;
#[cfg(test)]
mod values;
