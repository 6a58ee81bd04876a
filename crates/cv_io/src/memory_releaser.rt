//! A releaser over a pad in memory.

ghost use Rattle.std.specs.Prelude.{◌≡◌, ◌+◌, ◌≤◌, ◌++◌, length, vec_capacity};
ghost use Rattle.cv_io.specs.Xored.{xored};

use crate::releaser::{TrustFault, Trusted};
use cv_word::NoMemory;
use std::alloc::Global;

/// A releaser that answers each byte exclusive or with the next byte of a pad, and fails at chosen
/// releases and where too little of the pad is left.
///
/// No byte of the pad is used twice, and a release that fails uses none. Releases are numbered from
/// 1, also those that fail. The number of releases and the count of faults stay at 2^64 - 1. A
/// release takes no memory.
#[derive(Drop)]
pub struct XorPad {
    pad: Vec<u8>,
    failing: Vec<u64>,
    calls: u64,
    heard: Vec<u8>,
    told: Vec<u8>,
    failed_len: u64,
    faults: u64,
    ghost as_long: { length heard.items ≡ length told.items },
    ghost within: { length told.items ≤ length pad.items },
    ghost room_heard: { length pad.items ≤ vec_capacity heard },
    ghost room_told: { length pad.items ≤ vec_capacity told },
}

impl XorPad {
    ghost use Rattle.std.specs.Prelude.{◌≡◌, ◌↔◌, IfOk, IsTrue};
    ghost use Rattle.cv_io.specs.PadInMemory.{FailsNext, fresh_pad, pad_of};

    /// One with this pad that nobody has asked. The releases numbered in `fails` are to fail; a
    /// number 0 lets none fail.
    ///
    /// Takes memory for as many bytes asked and answered as the pad has.
    pub fn new(alloc: Global, pad: Vec<u8>, fails: Vec<u64>) -> Result<XorPad, NoMemory>
        ensures { IfOk result (λ releaser. pad_of releaser ≡ fresh_pad pad.items fails.items) }
    {
        let heard = Vec::with_capacity(alloc, pad.len())?;
        let told = Vec::with_capacity(alloc, pad.len())?;
        Ok(XorPad {
            pad,
            failing: fails,
            calls: 0,
            heard,
            told,
            failed_len: 0,
            faults: 0,
        })
    }

    /// Whether the next release, if it is of this many bytes, is one that fails.
    fn fails_next(&self, len: usize) -> bool
        ensures { IsTrue result ↔ FailsNext (pad_of self.now) len }
    {
        let call = self.calls.saturating_add(1);
        self.failing.contains(&call) || len > self.pad.len() - self.told.len()
    }
}

impl Trusted for XorPad {
    ghost use Rattle.std.specs.Prelude.{◌≡◌, ◌≤◌, ◌↔◌, OnOk, IsErr, length};
    ghost use Rattle.cv_io.specs.PadInMemory.{FailsNext, after_release, pad_of, unused};
    ghost use Rattle.cv_io.specs.Xored.{xored};

    ghost known = { λ releaser. (pad_of releaser).known };

    /// Fails exactly at the numbers given to `new`, and where more bytes are asked for than are left
    /// of the pad.
    fn release(&mut self, from: &[u8], to: &mut [u8]) -> Result<(), TrustFault>
        requires { length from.now ≡ length to.old }
        ensures fails { IsErr result ↔ FailsNext (pad_of self.old) (length from.now) }
        ensures answered { OnOk result (to.new ≡ xored from.now (unused (pad_of self.old))) }
        ensures after { pad_of self.new ≡ after_release result from.now to.new (pad_of self.old) }
        ensures counted { (pad_of self.old).known.faults ≤ (pad_of self.new).known.faults }
    {
        let fails = self.fails_next(from.len());
        self.calls = self.calls.saturating_add(1);
        if fails {
            self.failed_len = from.len() as u64;
            self.faults = self.faults.saturating_add(1);
            return Err(TrustFault);
        }
        xor_into(from, &self.pad[self.told.len()..], to);
        append(&mut self.heard, from);
        append(&mut self.told, to);
        Ok(())
    }

    fn heard(&self) -> &[u8] {
        &self.heard
    }

    fn told(&self) -> &[u8] {
        &self.told
    }

    fn failed_len(&self) -> u64 {
        self.failed_len
    }

    fn faults(&self) -> u64 {
        self.faults
    }
}

/// Fills `to` with the bytes of `from`, each exclusive or with the byte of the pad at its place.
fn xor_into(from: &[u8], pad: &[u8], to: &mut [u8])
    requires lengths { length from.now ≡ length to.old }
    requires enough { length from.now ≤ length pad.now }
    ensures { to.new ≡ xored from.now pad.now }
{
    for i in 0..from.len() {
        to[i] = from[i] ^ pad[i];
    }
}

/// Appends the piece, for which there is room.
fn append(bytes: &mut Vec<u8>, piece: &[u8])
    requires { length bytes.old.items + length piece.now ≤ vec_capacity bytes.old }
    ensures items { bytes.new.items ≡ bytes.old.items ++ piece.now }
    ensures room { vec_capacity bytes.old ≤ vec_capacity bytes.new }
{
    match bytes.extend_from_slice(piece) {
        Ok(()) => {}
        Err(_) => unreachable!(),
    }
}
