//! The form of an image file: what a verified program is stored as, both ways.
//!
//! An image is a header of 40 bytes, the entries, the code, and the bytes that the two segments start
//! with. `read_image` answers the parts of a file exactly where each field of the form is good, and
//! otherwise the least place of a wrong one; it copies nothing but the entries. `write_image` gives the
//! one spelling of good parts. So each undoes the other.
#![tactic(auto)]

mod parts;
mod reading;
mod writing;

pub use parts::{FormFault, Parts};
pub use reading::read_image;
pub use writing::write_image;

#[cfg(test)]
mod tests;
