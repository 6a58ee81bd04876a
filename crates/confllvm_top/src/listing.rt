//! What `disasm` does with the bytes of a file.

ghost use Rattle.std.specs.Prelude.{◌≤◌, ℕ, List, [], IfOk, Option};
ghost use Rattle.std.specs.String.{string_bytes};
ghost use Rattle.command_line.specs.Commands.{Disasm};
ghost use Rattle.cv_io.specs.Releasers.{Classes};
ghost use Rattle.cv_word.specs.GateStep.{Tape};
ghost use Rattle.confllvm_top.specs.Answers.{IsAnswer};
ghost use Rattle.confllvm_top.specs.Endings.{Does};
ghost use Rattle.confllvm_top.specs.Inputs.{image_alone};
ghost use Rattle.confllvm_top.specs.Plans.{HasSaved, Shelf, line_out};
ghost use Rattle.confllvm_top.specs.Streams.{stream};

use crate::lines;
use crate::status::Status;
use crate::telling::{Told, put_told, tell_no_memory};
use conf_verify::{VerifyError, list_items};
use cv_io::Sink;
use cv_word::NoMemory;
use disasm_text::{listing_law, listing_text};
use std::alloc::Global;

/// Puts the listing of the bytes' code to `out`, a line for each item, or the line of the refusal.
pub(crate) fn tell_listing<O: Sink, E: Sink>(
    alloc: Global,
    bytes: &[u8],
    out: &mut O,
    err: &mut E,
) -> Status
    ensures does { (name : List ℕ) (s : Shelf) (classes : Classes) → HasSaved [] s → Does result (Disasm name) bytes.now (record { out = stream O.held O.faults out.old out.new; err = stream E.held E.faults err.old err.new; store = s; classes_before = classes; classes = classes }) }
    ensures out_counted { O.faults out.old ≤ O.faults out.new }
    ensures err_counted { E.faults err.old ≤ E.faults err.new }
{
    let Ok(told) = listing_of(alloc, bytes) else {
        return tell_no_memory(err);
    };
    put_told(&told, out, err)
}

/// The text of the bytes' listing, or the line of the refusal.
fn listing_of(alloc: Global, bytes: &[u8]) -> Result<Told, NoMemory>
    ensures { IfOk result (λ told. (name : List ℕ) (tapes : List (Option Tape)) → IsAnswer told.status (Disasm name) (image_alone bytes.now tapes) (line_out (string_bytes told.line))) }
{
    match list_items(alloc, bytes) {
        Ok(listing) => {
            listing_law();
            let line = listing_text(alloc, &listing)?;
            Ok(Told {
                status: Status::Done,
                line,
            })
        }
        Err(VerifyError::Refused { rule, at }) => {
            let line = lines::refused(alloc, rule, at)?;
            Ok(Told {
                status: Status::Refused { rule, at },
                line,
            })
        }
        Err(VerifyError::NoMemory) => Err(NoMemory),
    }
}
