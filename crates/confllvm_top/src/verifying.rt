//! What `verify` does with the bytes of a file.

ghost use Rattle.std.specs.Prelude.{◌≤◌, ℕ, List, [], IfOk, Option};
ghost use Rattle.std.specs.String.{string_bytes};
ghost use Rattle.cv_io.specs.Releasers.{Classes};
ghost use Rattle.cv_word.specs.GateStep.{Tape};
ghost use Rattle.confllvm_top.specs.Answers.{IsAnswer};
ghost use Rattle.command_line.specs.Commands.{Verify};
ghost use Rattle.confllvm_top.specs.Endings.{Does};
ghost use Rattle.confllvm_top.specs.Inputs.{image_alone};
ghost use Rattle.confllvm_top.specs.Plans.{HasSaved, Shelf, line_out};
ghost use Rattle.confllvm_top.specs.Streams.{stream};

use crate::lines;
use crate::status::Status;
use crate::telling::{Told, put_told, tell_no_memory};
use conf_verify::{VerifyError, verify};
use cv_io::Sink;
use cv_word::NoMemory;
use std::alloc::Global;

/// Verifies the bytes and puts the line that tells what they are to `out`.
pub(crate) fn tell_verdict<O: Sink, E: Sink>(
    alloc: Global,
    bytes: &[u8],
    out: &mut O,
    err: &mut E,
) -> Status
    ensures does { (name : List ℕ) (s : Shelf) (classes : Classes) → HasSaved [] s → Does result (Verify name) bytes.now (record { out = stream O.held O.faults out.old out.new; err = stream E.held E.faults err.old err.new; store = s; classes_before = classes; classes = classes }) }
    ensures out_counted { O.faults out.old ≤ O.faults out.new }
    ensures err_counted { E.faults err.old ≤ E.faults err.new }
{
    let Ok(told) = verdict_of(alloc, bytes) else {
        return tell_no_memory(err);
    };
    put_told(&told, out, err)
}

/// Verifies the bytes, and writes the line that tells what they are.
fn verdict_of(alloc: Global, bytes: &[u8]) -> Result<Told, NoMemory>
    ensures { IfOk result (λ told. (name : List ℕ) (tapes : List (Option Tape)) → IsAnswer told.status (Verify name) (image_alone bytes.now tapes) (line_out (string_bytes told.line))) }
{
    match verify(alloc, bytes) {
        Ok(verified) => {
            ni_laws::accepted_law();
            let line = lines::accepted(alloc, verified.counts())?;
            Ok(Told {
                status: Status::Done,
                line,
            })
        }
        Err(VerifyError::Refused { rule, at }) => {
            let line = lines::refused(alloc, rule, at)?;
            Ok(Told {
                status: Status::Refused { rule, at },
                line,
            })
        }
        Err(VerifyError::NoMemory) => Err(NoMemory),
    }
}
