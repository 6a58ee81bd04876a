//! The chain of a code's items.

ghost use Rattle.std.specs.Prelude.{◌≡◌, ◌<◌, ◌^◌, length, IfOk, IfErr};
ghost use Rattle.code_sweep.specs.Listing.{IsListing};
ghost use Rattle.code_sweep.specs.Sweep.{IsBreak};
ghost use Rattle.code_sweep.specs.declared.sweeping.SweepError.TheVariants.{NoMemory};

use crate::item::{Listing, Placed};
use crate::place::item_at;
use std::alloc::{AllocError, AllocFailed, Global};
use thiserror::Error;

/// Why a code has no listing.
#[derive(Clone, Copy, Debug, PartialEq, Eq, Error)]
pub enum SweepError {
    /// Memory was refused.
    #[error("no memory")]
    NoMemory,
    /// The first place in the chain where no item begins.
    #[error("no item at place {at}")]
    NoItem { at: u32 },
}

impl From<AllocError> for SweepError {
    ghost from_gives = { λ _ e. e ≡ NoMemory };

    fn from(_e: AllocError) -> SweepError {
        SweepError::NoMemory
    }
}

impl<T: Drop> From<AllocFailed<T>> for SweepError {
    ghost from_gives = { λ _ e. e ≡ NoMemory };

    fn from(_e: AllocFailed<T>) -> SweepError {
        SweepError::NoMemory
    }
}

/// The one chain of items from the code's first byte to its end, or the first place in it where no item
/// begins.
pub fn sweep<'a>(alloc: Global, code: &'a [u8], prefix: [u8; 6]) -> Result<Listing<'a>, SweepError>
    requires { length code.now < 2 ^ 32 }
    ensures code { IfOk result (λ l. l.code.now ≡ code.now) }
    ensures listing { IfOk result (λ l. IsListing prefix code.now l.items.items) }
    ensures broken { IfErr result (IsBreak prefix code.now) }
{
    // A plain instruction has some 4 to 7 bytes; where items are shorter, the list grows.
    let mut items = Vec::with_capacity(alloc, code.len() / 4)?;
    let mut at = 0usize;
    while at < code.len() {
        let Some((item, len)) = item_at(code, at, prefix) else {
            return Err(SweepError::NoItem { at: at as u32 });
        };
        items.push(Placed {
            at: at as u32,
            len,
            item,
        })?;
        at += len as usize;
    }
    Ok(Listing { code, items })
}
