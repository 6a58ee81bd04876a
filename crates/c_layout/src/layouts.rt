//! Layouts.

use crate::frames::Frame;
use c_ast::Items;

/// Where the globals, strings and frames of a program lie.
#[derive(Debug, Drop)]
pub struct Layout {
    /// The offset of each global in its segment.
    pub globals: Items<u32>,
    /// The offset of each string in the public segment.
    pub strings: Items<u32>,
    pub frames: Items<Frame>,
    /// From offset 4096 to the end of the last global or string in the public segment, and 0 if there is none.
    pub pub_len: u32,
    /// From offset 4096 to the end of the last global in the private segment, and 0 if there is none.
    pub priv_len: u32,
}
