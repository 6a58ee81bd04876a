//! How a run stands.

use cv_word::FaultKind;

/// How a run stands. Once it is no longer running, no step changes anything.
#[derive(Clone, Copy, Debug, PartialEq, Eq)]
pub enum Outcome {
    /// The run goes on.
    Running,
    /// The gate Exit was called, with this status; or all cores have ended, and the status is 0.
    Exited { status: i32 },
    /// A step of a core faulted at the address of its program counter.
    Fault { core: u8, at: u64, kind: FaultKind },
    /// The tape of a class ran out in a release of a core, at the address of its program counter.
    Tape { core: u8, at: u64, class: u64 },
}
