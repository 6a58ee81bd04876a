//! The heap of a segment: first fit over holes.
//!
//! [`Heap::take`] hands out the front of the first hole that holds a request, rounded up to a multiple
//! of 16, and [`Heap::give`] makes a block a hole again, merged with the holes that it touches. Both are
//! exactly the definitions of `cv_word`, and take no memory. Holes and blocks lie end to end from the
//! heap's start to its end, so a block that is handed out has no byte in common with one that is out.
#![tactic(auto)]

mod heap;
mod hole;
mod law;
mod spans;

pub use heap::Heap;
pub use hole::Hole;
pub use law::heap_law;

#[cfg(test)]
mod tests;
