//! How a gate step ends.

use cv_word::FaultKind;

/// How a gate step ends. Only `Next` changes registers, memory or the gates' world.
#[derive(Clone, Copy, Debug, PartialEq, Eq)]
pub enum GateEnd {
    /// The core goes on behind the return word.
    Next,
    /// The core has ended.
    CoreEnd,
    /// The run has ended, with a status.
    Exit(i32),
    /// The step faults.
    Fault(FaultKind),
    /// The releaser of a class has failed.
    Tape(u64),
}
