//! Why no assignment is answered.

ghost use Rattle.qual_solve.specs.declared.leak.SolveError.TheVariants.{NoMemory as Refused};
ghost use Rattle.std.specs.Prelude.{◌≡◌};

use cv_word::NoMemory;
use std::marker::Model;
use thiserror::Error;

/// The constraints that lead to a leak, by their numbers. Contracts see it as the list of these.
#[derive(Debug, Drop)]
pub struct Chain {
    numbers: Vec<u64>,
}

impl Model for Chain {
    ghost use Rattle.std.specs.Prelude.{ℕ, List};

    ghost Value = { List ℕ };

    ghost view = { λ c. c.numbers.items };
}

impl Chain {
    /// Takes no memory.
    pub fn from_vec(numbers: Vec<u64>) -> Chain
        ensures { result ≡ numbers.items }
    {
        Chain { numbers }
    }

    /// Takes no memory.
    pub fn as_slice(&self) -> &[u64]
        ensures { result.now ≡ self.now }
    {
        self.numbers.as_slice()
    }
}

/// Why no assignment is answered.
#[derive(Debug, Drop, Error)]
pub enum SolveError {
    /// Memory was refused. With ample memory it isn't.
    #[error("no memory")]
    NoMemory,
    /// No assignment satisfies the list. Constraints are numbered from 0. `at` is the number of the first constraint
    /// with the constant public as its right end whose left end is private in every assignment that meets all
    /// constraints but those to the constant public. `chain` leads from the constant private to it and ends with `at`:
    /// the shortest such list of numbers, and of those the first in dictionary order. It may pass through the constant
    /// public where that makes it shorter.
    #[error("leak at constraint {at}")]
    Leak { at: u64, chain: Chain },
}

impl From<NoMemory> for SolveError {
    ghost from_gives = { λ _ e. e ≡ Refused };

    fn from(_e: NoMemory) -> SolveError {
        SolveError::NoMemory
    }
}
