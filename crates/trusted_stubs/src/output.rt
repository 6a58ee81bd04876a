//! Bytes that a run puts out, up to a limit.

ghost use Rattle.std.specs.Prelude.{◌≡◌, ◌+◌, ◌<◌, ◌≤◌, [], ◌++◌, nat_lt, length, IfOk};
ghost use Rattle.cv_word.specs.GateStep.{most_output};

use cv_word::NoMemory;
use std::alloc::Global;
use std::marker::Model;

/// The most bytes of an output or of the audit.
pub(crate) const MOST_OUTPUT: usize = 1_048_576;

/// At most [`MOST_OUTPUT`] bytes, with room for all of them from the start. Contracts see it as the list of its bytes.
#[derive(Drop)]
pub(crate) struct Output {
    bytes: Vec<u8>,
}

impl Model for Output {
    ghost use Rattle.std.specs.Prelude.{List, ℕ, length, vec_capacity};
    ghost use Rattle.trusted_stubs.specs.Outputs.{HasRoom};

    ghost Value = { List ℕ };

    ghost view = { λ o. o.bytes.items };

    ghost invariant = { λ o. HasRoom (length o.bytes.items) (vec_capacity o.bytes) };
}

impl Output {
    /// No bytes yet.
    pub(crate) fn new(alloc: Global) -> Result<Output, NoMemory>
        ensures { IfOk result (λ output. output ≡ []) }
    {
        Ok(Output {
            bytes: Vec::with_capacity(alloc, MOST_OUTPUT)?,
        })
    }

    /// All bytes so far.
    pub(crate) fn bytes(&self) -> &[u8]
        ensures bytes { result.now ≡ self.now }
        ensures few { length self.now ≤ most_output }
    {
        &self.bytes
    }

    /// Whether so many bytes more are too many.
    pub(crate) fn is_passed_by(&self, more: u64) -> bool
        ensures { result ≡ nat_lt most_output (length self.now + more) }
    {
        more > (MOST_OUTPUT - self.bytes.len()) as u64
    }

    /// Appends bytes, which are not too many.
    pub(crate) fn append(&mut self, piece: &[u8])
        requires { length self.old + length piece.now ≤ most_output }
        ensures { self.new ≡ self.old ++ piece.now }
    {
        match self.bytes.extend_from_slice(piece) {
            Ok(()) => {}
            Err(_error) => unreachable!(),
        }
    }
}
