//! Why a program has no types.

ghost use Rattle.type_rules.specs.declared.errors.TypeError.TheVariants.{NoMemory};
ghost use Rattle.std.specs.Prelude.{◌≡◌};

use std::alloc::{AllocError, AllocFailed};
use thiserror::Error;

/// Why a program has no types.
#[derive(Clone, Copy, Debug, PartialEq, Eq, Error)]
pub enum TypeError {
    /// Memory was refused. With ample memory it isn't.
    #[error("no memory")]
    NoMemory,
    /// The least place where a rule is broken, and the lowest rule that is broken there.
    #[error("rule K{rule} is broken at {place}")]
    TypeFault { rule: u8, place: u32 },
}

impl<T: Drop> From<AllocFailed<T>> for TypeError {
    ghost from_gives = { λ _ e. e ≡ NoMemory };

    fn from(_e: AllocFailed<T>) -> TypeError {
        TypeError::NoMemory
    }
}

impl From<AllocError> for TypeError {
    ghost from_gives = { λ _ e. e ≡ NoMemory };

    fn from(_e: AllocError) -> TypeError {
        TypeError::NoMemory
    }
}

impl From<cv_word::NoMemory> for TypeError {
    ghost from_gives = { λ _ e. e ≡ NoMemory };

    fn from(_e: cv_word::NoMemory) -> TypeError {
        TypeError::NoMemory
    }
}
