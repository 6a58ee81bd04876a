//! Items, and where they stand.

use x64_decode::{Instr, Reg};

/// What stands at a place of the code.
#[derive(Clone, Copy, Debug, PartialEq, Eq)]
pub enum Item {
    /// A call word of 8 bytes, with its bits.
    Call(u8),
    /// A return word of 8 bytes, with its bit.
    Ret(u8),
    /// An instruction.
    Plain(Instr),
    /// A return unit of 56 bytes, with the bit of its return word.
    ReturnUnit(u8),
    /// A call unit of 42 bytes: the register that names the callee, and the bits of its call word.
    CallUnit(Reg, u8),
}

/// An item and its place.
#[derive(Clone, Copy, Debug, PartialEq, Eq)]
pub struct Placed {
    /// The offset in the code of the item's first byte.
    pub at: u32,
    /// How many bytes the item has.
    pub len: u8,
    pub item: Item,
}

/// The chain of a code's items, from its first byte to its end.
#[derive(Debug, Drop)]
pub struct Listing<'a> {
    pub code: &'a [u8],
    pub items: Vec<Placed>,
}
