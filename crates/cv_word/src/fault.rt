//! Why a run ends in a fault.

/// What went wrong in a step. A faulting step changes nothing but the outcome.
#[derive(Clone, Copy, Debug, PartialEq, Eq)]
pub enum FaultKind {
    /// An access that the memory map refuses, or a program counter outside the code that is no gate's.
    Memory,
    /// UD2, or bytes that no row of the instruction table spells.
    Undefined,
    /// A division by 0, or one whose quotient doesn't fit.
    Divide,
    /// A gate was entered without its return word where the core waits.
    GateReturn,
    /// A gate was passed a range that isn't mapped.
    Range,
    /// An output or the audit would pass its limit, or a release has too many bytes.
    OutLimit,
    /// A release was asked of a class that has no releaser.
    NoReleaser,
}
