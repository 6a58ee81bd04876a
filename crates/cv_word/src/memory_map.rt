//! The memory map's first addresses.

/// The first flat address of the code.
pub const CODE_BASE: u64 = 0x1_0000;

/// The first flat address of the public segment, the base of fs.
pub const PUBLIC_BASE: u64 = 0x2_0000_0000;

/// The first flat address of the private segment, the base of gs.
pub const PRIVATE_BASE: u64 = 0x4_0000_0000;
