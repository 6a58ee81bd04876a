//! What one core holds.

/// Whether two runs that differ in private data alone may differ here.
#[derive(Clone, Copy, Debug, PartialEq, Eq)]
pub enum Taint {
    /// Equal in all such runs.
    Pub,
    /// May differ.
    Priv,
}

/// The four flags that the instructions of this machine write and read.
#[derive(Clone, Copy, Debug, PartialEq, Eq)]
pub struct Flags {
    /// The result was 0.
    pub zf: bool,
    /// Bit 63 of the result.
    pub sf: bool,
    /// The unsigned sum or difference left 64 bits.
    pub cf: bool,
    /// The signed sum or difference left 64 bits.
    pub of: bool,
}

/// The registers of one core.
#[derive(Clone, Copy, Debug, PartialEq, Eq)]
pub struct Registers {
    /// rax, rcx, rdx, rbx, rsp, rbp, rsi, rdi, and r8 to r15.
    pub r: [u64; 16],
    /// The flags.
    pub flags: Flags,
    /// The flat address of the next instruction.
    pub pc: u64,
}
