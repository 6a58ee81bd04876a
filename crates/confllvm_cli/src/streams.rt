//! A sink over a stream of the system.

ghost use Rattle.std.specs.Prelude.{None};

use crate::pieces::write_all;
use cv_io::{Sink, SinkError};
use std::io::Write;

/// A sink over a writer. It doesn't tell its bytes, and counts its faults up to 2^64 - 1.
#[derive(Drop)]
pub struct Stream<W> {
    writer: W,
    faults: u64,
}

impl<W: Write> Stream<W> {
    /// A sink that has not failed yet.
    pub fn new(writer: W) -> Stream<W> {
        Stream { writer, faults: 0 }
    }
}

impl<W: Write> Sink for Stream<W> {
    ghost held = { λ _. None };

    ghost faults = { λ stream. stream.faults };

    fn put(&mut self, bytes: &[u8]) -> Result<(), SinkError> {
        if write_all(&mut self.writer, bytes) {
            Ok(())
        } else {
            self.faults = self.faults.saturating_add(1);
            Err(SinkError::Failed)
        }
    }
}
