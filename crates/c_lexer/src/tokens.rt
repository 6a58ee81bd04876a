//! What `lex` answers.

ghost use Rattle.c_lexer.specs.declared.tokens.LexError.TheVariants.{NoMemory};
ghost use Rattle.std.specs.Prelude.{◌≡◌};

use std::alloc::AllocFailed;
use thiserror::Error;

/// What a token is.
#[derive(Clone, Copy, Debug, PartialEq, Eq)]
pub enum TokenKind {
    /// A name that is no keyword.
    Name,
    /// A keyword.
    Keyword,
    /// A number from 0 to 2^63 - 1, with or without its suffix.
    Num { value: u64 },
    /// A character between single quotes, and the byte that it stands for.
    Char { value: u8 },
    /// A string between double quotes.
    Str,
    /// An operator, a bracket or a separator.
    Sign,
}

/// A token: the source's bytes from `start` to `end`, exclusive.
#[derive(Clone, Copy, Debug, PartialEq, Eq)]
pub struct Token {
    /// What it is.
    pub kind: TokenKind,
    /// The place of its first byte.
    pub start: u32,
    /// The place after its last byte.
    pub end: u32,
}

/// Why a source has no tokens.
#[derive(Clone, Copy, Debug, PartialEq, Eq, Error)]
pub enum LexError {
    /// Memory was refused. With ample memory it isn't.
    #[error("no memory")]
    NoMemory,
    /// The first place, after spaces and comments, where no token begins. A comment that isn't
    /// closed, and a number with a letter, a digit or `_` right after it, are told at their start.
    #[error("no token at {place}")]
    LexFault { place: u32 },
}

impl<T: Drop> From<AllocFailed<T>> for LexError {
    ghost from_gives = { λ _ e. e ≡ NoMemory };

    fn from(_e: AllocFailed<T>) -> LexError {
        LexError::NoMemory
    }
}
