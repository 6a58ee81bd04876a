//! Why tokens are no program.

ghost use Rattle.c_parser.specs.declared.errors.ParseError.TheVariants.{NoMemory};
ghost use Rattle.std.specs.Prelude.{◌≡◌};

use std::alloc::{AllocError, AllocFailed};
use thiserror::Error;

/// Why tokens are no program.
#[derive(Clone, Copy, Debug, PartialEq, Eq, Error)]
pub enum ParseError {
    /// Memory was refused. With ample memory it isn't.
    #[error("no memory")]
    NoMemory,
    /// The number, from 0, of the first token with which no program goes on. Where more tokens are needed, the
    /// number of all tokens.
    #[error("no program at token {token}")]
    SyntaxFault { token: u32 },
    /// The number, from 0, of the first token that is nested above 200.
    #[error("nested too deep at token {token}")]
    DepthFault { token: u32 },
}

impl<T: Drop> From<AllocFailed<T>> for ParseError {
    ghost from_gives = { λ _ e. e ≡ NoMemory };

    fn from(_e: AllocFailed<T>) -> ParseError {
        ParseError::NoMemory
    }
}

impl From<AllocError> for ParseError {
    ghost from_gives = { λ _ e. e ≡ NoMemory };

    fn from(_e: AllocError) -> ParseError {
        ParseError::NoMemory
    }
}
