//! Files under names.

ghost use Rattle.std.specs.Prelude.{◌≡◌, ◌≤◌, ℕ, Option, vec_len, IfOk, OnOk, OnErr, IsErrOf};
ghost use Rattle.cv_io.specs.declared.store.StoreError.TheVariants.{NoMemory};
ghost use Rattle.cv_io.specs.Counts.{HasRisen};
ghost use Rattle.cv_io.specs.Files.{Files, HasFile, LacksFile, files_with};

use std::alloc::{AllocError, AllocFailed, Global};
use thiserror::Error;

/// The most bytes that a load answers. A load of a longer file is a failed load.
pub const LONGEST_LOAD: usize = 268_435_456;

/// Why a store did not do what it was asked.
#[derive(Clone, Copy, Debug, PartialEq, Eq, Error)]
pub enum StoreError {
    /// Memory was refused.
    #[error("no memory")]
    NoMemory,
    /// The store tells its files, and has none of this name. A save never answers it.
    #[error("no such file")]
    Missing,
    /// The store has failed, and has counted it as a fault.
    #[error("the store has failed")]
    Failed,
}

impl From<AllocError> for StoreError {
    ghost from_gives = { λ _ e. e ≡ NoMemory };

    fn from(_e: AllocError) -> StoreError {
        StoreError::NoMemory
    }
}

impl<T: Drop> From<AllocFailed<T>> for StoreError {
    ghost from_gives = { λ _ e. e ≡ NoMemory };

    fn from(_e: AllocFailed<T>) -> StoreError {
        StoreError::NoMemory
    }
}

/// Files under names.
///
/// A store that tells its files does so before and after each call, and so does one that doesn't.
pub trait Store {
    /// The files, where the store tells them.
    ghost contents: { Self → Option Files };

    /// How often the store has failed. A count of 2^64 - 1 stays there.
    ghost faults: { Self → ℕ };

    /// The bytes of the file `name`, at most [`LONGEST_LOAD`].
    ///
    /// Answers `Missing` only where the store tells its files and has none of this name, `Failed`
    /// only where its count of faults rose, as for a longer file, and `NoMemory` where memory is
    /// refused. No file changes.
    fn load(&mut self, alloc: Global, name: &str) -> Result<Vec<u8>, StoreError>
        ensures found { IfOk result (λ bytes. HasFile (contents self.old) name.now bytes.items) }
        ensures small { IfOk result (λ bytes. vec_len bytes ≤ LONGEST_LOAD) }
        ensures missing { IsErrOf result StoreError.Missing → LacksFile (contents self.old) name.now }
        ensures failed { IsErrOf result StoreError.Failed → HasRisen (faults self.old) (faults self.new) }
        ensures unchanged { contents self.new ≡ contents self.old }
        ensures counted { faults self.old ≤ faults self.new };

    /// Makes `bytes` the file `name`, whether or not there was one. All other files stay.
    ///
    /// Answers `Failed` only where the count of faults rose, and `NoMemory` where memory is
    /// refused. With either all files stay.
    fn save(&mut self, name: &str, bytes: &[u8]) -> Result<(), StoreError>
        ensures saved { OnOk result (contents self.new ≡ files_with (contents self.old) name.now bytes.now) }
        ensures unsaved { OnErr result (contents self.new ≡ contents self.old) }
        ensures not_missing { IsErrOf result StoreError.Missing → ⊥ }
        ensures failed { IsErrOf result StoreError.Failed → HasRisen (faults self.old) (faults self.new) }
        ensures counted { faults self.old ≤ faults self.new };
}
