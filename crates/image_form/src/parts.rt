//! The parts of an image.

use arrayvec::ArrayVec;
use thiserror::Error;

/// What an image file holds. The code and the start bytes lie in the file's own bytes.
#[derive(Debug, Drop)]
pub struct Parts<'a> {
    /// The six bytes that mark the words of the code.
    pub prefix: [u8; 6],
    /// The bytes of each segment: a multiple of 4096 from 65,536 to 67,108,864.
    pub seg_size: u32,
    /// The bytes of each core's stack: a multiple of 16, at least 256. A segment holds one for each entry.
    pub stack_size: u32,
    /// For each core the offset in the code at which it starts; 1 to 8 of them.
    pub entries: ArrayVec<u32, 8>,
    /// The code, 1 to 4,194,304 bytes.
    pub code: &'a [u8],
    /// The first bytes of the public segment, from its offset 4096 on.
    pub public: &'a [u8],
    /// The first bytes of the private segment, from its offset 4096 on.
    pub private: &'a [u8],
}

/// A file is no image.
#[derive(Clone, Copy, Debug, PartialEq, Eq, Error)]
#[error("no image at place {place}")]
pub struct FormFault {
    /// The place in the file of the first byte of the first wrong field, or of the first byte too many.
    pub place: u32,
}
