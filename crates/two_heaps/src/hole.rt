//! Holes and blocks.

ghost use Rattle.std.specs.Prelude.{◌≡◌, ◌^◌, ◌<◌};
ghost use Rattle.cv_word.specs.Heap.{end_of};

use std::marker::Model;

/// So many bytes of a heap, from an offset on.
#[derive(Clone, Copy, Debug, PartialEq, Eq)]
pub struct Hole {
    /// The offset of the first byte, in the segment: a multiple of 16.
    pub at: u32,
    /// How many bytes: a multiple of 16 above 0.
    pub len: u32,
}

impl Model for Hole {
    ghost use Rattle.cv_word.specs.Heap.{Span};

    ghost Value = { Span };

    ghost view = { λ hole. record { at = hole.at; len = hole.len } };

    ghost inverse = { λ span. record { at = span.at; len = span.len } };
}

/// A block that is out has an offset and a length, like a hole.
pub type Block = Hole;

impl Hole {
    /// The offset behind the last byte.
    pub(crate) fn end(self) -> u32
        requires { end_of self < 2 ^ 32 }
        ensures { result ≡ end_of self }
    {
        self.at + self.len
    }
}
