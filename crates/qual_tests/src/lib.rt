//! Tests of inferred qualifiers over whole sources.
//!
//! They stand above the parser, the typing and the solver, so that each is proved once without them. A row is a source,
//! with the whole list of its constraints in order, or with what is solved for it. All of them were written by hand.
#![tactic(auto)]

#[cfg(test)]
mod answers;
#[cfg(test)]
mod conditions;
#[cfg(test)]
mod flows;
#[cfg(test)]
mod pointers;
#[cfg(test)]
mod rows;
#[cfg(test)]
mod sources;
