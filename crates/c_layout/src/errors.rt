//! Why a program has no layout.

ghost use Rattle.c_layout.specs.declared.errors.LayoutError.TheVariants.{NoMemory as Refused};
ghost use Rattle.std.specs.Prelude.{◌≡◌};

use cv_word::NoMemory;
use thiserror::Error;

/// Which limit is passed. The limits are tried in this order.
#[derive(Clone, Copy, Debug, PartialEq, Eq)]
pub enum LimitKind {
    /// More than 8 entries. The value is their number.
    Entries,
    /// More than 20,000 expression nodes and statements in the whole program. The value is their number.
    Nodes,
    /// More than 4 parameters, or more than 4 arguments of a call. The value is the greatest of the number of
    /// parameters and the numbers of arguments of its calls, in the first function where that is above 4.
    Params,
    /// A frame of more than 16,384 bytes. The value is the size of the first such frame.
    Frame,
    /// A stack whose size is no multiple of 16 or is below 256, or stacks that the segment doesn't hold behind its
    /// first 4096 bytes. The value is the size of one stack.
    Stack,
    /// A segment that doesn't hold its first 4096 bytes, its start bytes and the stacks. The value is their sum in the
    /// segment with more start bytes. If the sum fits: a size that is no multiple of 4096 from 65,536 to 67,108,864.
    /// The value is then this size.
    Segment,
}

/// Why a program has no layout.
#[derive(Clone, Copy, Debug, PartialEq, Eq, Error)]
pub enum LayoutError {
    /// Memory was refused, or a size or an offset is 2^64 bytes or more. With ample memory no smaller program is
    /// refused so.
    #[error("no memory")]
    NoMemory,
    /// The first limit that is passed, and its value.
    #[error("limit {kind:?} is passed by {value}")]
    Limit { kind: LimitKind, value: u64 },
}

impl From<NoMemory> for LayoutError {
    ghost from_gives = { λ _ e. e ≡ Refused };

    fn from(_e: NoMemory) -> LayoutError {
        LayoutError::NoMemory
    }
}
