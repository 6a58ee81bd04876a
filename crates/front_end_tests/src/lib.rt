//! Tests of the front end over whole sources: what is a program, where its parts lie, and the token at
//! which a list of tokens stops being the beginning of one.
//!
//! They stand above `c_parser`, so that it is proved once without them.
#![tactic(auto)]

#[cfg(test)]
mod faults;
#[cfg(test)]
mod leaning;
#[cfg(test)]
mod long_sources;
#[cfg(test)]
mod near_misses;
#[cfg(test)]
mod nesting;
#[cfg(test)]
mod places;
#[cfg(test)]
mod productions;
#[cfg(test)]
mod programs;
#[cfg(test)]
mod trees;
