//! The memory that all cores share: the code, and two segments that never meet.
//!
//! [`Segments`] holds the bytes of the public and of the private segment, by offset, beside the code. Contracts see it as the
//! record `Memory` of `cv_word`. An access by fs reaches public offsets alone, and one by gs private offsets alone; a write changes
//! the written bytes of its one segment and nothing else. Accesses are by number, of 1, 4 or 8 bytes, by flat address, of 8 bytes,
//! and by range, which copies a slice. An access of which a byte is unmapped is refused and changes nothing. Nothing but
//! [`Segments::new`] takes memory.
#![tactic(auto)]

mod segments;
#[cfg(test)]
mod tests;

pub use segments::Segments;
