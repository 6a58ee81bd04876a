//! Where bytes go.

ghost use Rattle.std.specs.Prelude.{◌≡◌, ◌≤◌, ℕ, List, Option, OnOk, IsErrOf};
ghost use Rattle.cv_io.specs.declared.sink.SinkError.TheVariants.{NoMemory};
ghost use Rattle.cv_io.specs.Counts.{HasRisen};
ghost use Rattle.cv_io.specs.Output.{AppendsFront, appended};

use std::alloc::{AllocError, AllocFailed};
use thiserror::Error;

/// Why a sink did not take all bytes.
#[derive(Clone, Copy, Debug, PartialEq, Eq, Error)]
pub enum SinkError {
    /// Memory was refused.
    #[error("no memory")]
    NoMemory,
    /// The sink has failed, and has counted it as a fault.
    #[error("the sink has failed")]
    Failed,
}

impl From<AllocError> for SinkError {
    ghost from_gives = { λ _ e. e ≡ NoMemory };

    fn from(_e: AllocError) -> SinkError {
        SinkError::NoMemory
    }
}

impl<T: Drop> From<AllocFailed<T>> for SinkError {
    ghost from_gives = { λ _ e. e ≡ NoMemory };

    fn from(_e: AllocFailed<T>) -> SinkError {
        SinkError::NoMemory
    }
}

/// Where bytes go, one piece after another.
///
/// A sink that tells its bytes does so before and after each call, and so does one that doesn't.
pub trait Sink {
    /// All bytes that the sink has taken, where it tells them.
    ghost held: { Self → Option (List ℕ) };

    /// How often the sink has failed. A count of 2^64 - 1 stays there.
    ghost faults: { Self → ℕ };

    /// Appends `bytes`.
    ///
    /// Answers `Failed` only where the count of faults rose: a front of `bytes` is then appended,
    /// from none to all of it. Answers `NoMemory` where memory is refused, and nothing is appended.
    fn put(&mut self, bytes: &[u8]) -> Result<(), SinkError>
        ensures all { OnOk result (held self.new ≡ appended (held self.old) bytes.now) }
        ensures none { IsErrOf result SinkError.NoMemory → held self.new ≡ held self.old }
        ensures front { IsErrOf result SinkError.Failed → AppendsFront (held self.old) bytes.now (held self.new) }
        ensures failed { IsErrOf result SinkError.Failed → HasRisen (faults self.old) (faults self.new) }
        ensures counted { faults self.old ≤ faults self.new };
}
