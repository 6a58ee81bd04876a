//! A sink in memory.

ghost use Rattle.std.specs.Prelude.{◌≡◌, ◌≤◌, Some, [], ◌∷◌, ◌++◌, take, OnOk, OnErr, IsErrOf, IsSome, IsNone};
ghost use Rattle.cv_io.specs.OutputInMemory.{after_put, keep_of, next_keep, sink_of};

use crate::sink::{Sink, SinkError};
use cv_word::NoMemory;
use std::alloc::Global;

/// A sink that holds its bytes in memory, tells them, and fails at chosen puts.
///
/// Puts are numbered from 1, also those that fail. The number of puts and the count of faults stay
/// at 2^64 - 1.
#[derive(Drop)]
pub struct MemSink {
    bytes: Vec<u8>,
    failing: Vec<FailingPut>,
    calls: u64,
    faults: u64,
}

/// A put that fails.
#[derive(Clone, Copy)]
struct FailingPut {
    /// The number of the put.
    call: u64,
    /// How many bytes of its piece it keeps, or all if that is shorter.
    keep: usize,
}

impl MemSink {
    /// No bytes, no puts, and no failing ones.
    pub fn new(alloc: Global) -> MemSink
        ensures bytes { (sink_of result).bytes ≡ [] }
        ensures failing { (sink_of result).failing ≡ [] }
        ensures calls { (sink_of result).calls ≡ 0 }
        ensures faults { (sink_of result).faults ≡ 0 }
    {
        MemSink {
            bytes: Vec::new(alloc),
            failing: Vec::new(alloc),
            calls: 0,
            faults: 0,
        }
    }

    /// All bytes that were put.
    pub fn bytes(&self) -> &[u8]
        ensures { result.now ≡ (sink_of self.now).bytes }
    {
        &self.bytes
    }

    /// Lets the put of this number fail and keep the first `keep` bytes of its piece, or all if it
    /// is shorter. Of several entries for one number the first counts. A number that is past, or 0,
    /// lets none fail.
    pub fn fail_at(&mut self, call: u64, keep: usize) -> Result<(), NoMemory>
        ensures ok { OnOk result (sink_of self.new ≡ record (sink_of self.old) { failing = (sink_of self.old).failing ++ record { call = call; keep = keep } ∷ [] }) }
        ensures err { OnErr result (sink_of self.new ≡ sink_of self.old) }
    {
        self.failing.push(FailingPut { call, keep })?;
        Ok(())
    }

    /// How many puts have failed.
    pub fn faults(&self) -> u64
        ensures { result ≡ (sink_of self.now).faults }
    {
        self.faults
    }
}

impl Sink for MemSink {
    ghost held = { λ sink. Some (sink_of sink).bytes };

    ghost faults = { λ sink. (sink_of sink).faults };

    /// Fails at the numbers given to `fail_at`.
    fn put(&mut self, bytes: &[u8]) -> Result<(), SinkError>
        ensures fails { IsErrOf result SinkError.Failed → IsSome (next_keep (sink_of self.old)) }
        ensures succeeds { OnOk result (IsNone (next_keep (sink_of self.old))) }
        ensures after { sink_of self.new ≡ after_put result bytes.now (sink_of self.old) }
        ensures counted { (sink_of self.old).faults ≤ (sink_of self.new).faults }
    {
        self.calls = self.calls.saturating_add(1);
        match keep_of(&self.failing, self.calls) {
            None => {
                self.bytes.extend_from_slice(bytes)?;
                Ok(())
            }
            Some(keep) => {
                self.bytes.extend_from_slice(front(bytes, keep))?;
                self.faults = self.faults.saturating_add(1);
                Err(SinkError::Failed)
            }
        }
    }
}

/// How many bytes the put of this number keeps, if it is one that fails.
fn keep_of(failing: &[FailingPut], call: u64) -> Option<usize>
    ensures { result ≡ keep_of failing.now call }
{
    failing
        .iter()
        .find(|entry| entry.call == call)
        .map(|entry| entry.keep)
}

/// The first `keep` bytes, or all if there are fewer.
fn front(bytes: &[u8], keep: usize) -> &[u8]
    ensures { result.now ≡ take keep bytes.now }
{
    if keep < bytes.len() {
        &bytes[..keep]
    } else {
        bytes
    }
}
