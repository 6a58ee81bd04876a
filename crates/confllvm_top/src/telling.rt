//! Telling how a command ends: lines that are put, and files that are saved.

ghost use Rattle.std.specs.Prelude.{◌≡◌, ◌⊎◌, ◌<◌, ◌≤◌, [], ◌++◌, length, IsErrOf, OnOk};
ghost use Rattle.std.specs.String.{string_bytes};
ghost use Rattle.command_line.specs.Words.{text_of};
ghost use Rattle.confllvm_top.specs.Inputs.{saves_of};
ghost use Rattle.confllvm_top.specs.Lines.{no_memory_line, store_fault_line};
ghost use Rattle.confllvm_top.specs.Loads.{SavesAll, SavesNamed};
ghost use Rattle.confllvm_top.specs.Plans.{HasSaved, PlanEnds, Shelf, line_err, line_out, shelf};
ghost use Rattle.confllvm_top.specs.Running.{saving};
ghost use Rattle.confllvm_top.specs.Streams.{EndsLine, HasGot, HasGotFront, HasGotLines, HasGotNothing, MayHaveGot, Stream, stream};

use crate::lines;
use crate::status::Status;
use cv_io::{Sink, SinkError, Store, StoreError};
use std::alloc::Global;

/// How a command ends where its line or lines can be put, and those.
#[derive(Drop)]
pub(crate) struct Told {
    pub(crate) status: Status,
    pub(crate) line: String,
}

/// Bytes that are saved, each if a file is named for them.
#[derive(Clone, Copy)]
pub(crate) struct Saves<'a> {
    pub(crate) private_name: Option<&'a str>,
    pub(crate) private: &'a [u8],
    pub(crate) audit_name: Option<&'a str>,
    pub(crate) audit: &'a [u8],
}

/// Puts the lines to `out`, each by itself, and answers the status that they tell, if that goes well.
pub(crate) fn put_told<O: Sink, E: Sink>(told: &Told, out: &mut O, err: &mut E) -> Status
    ensures ends { (s : Shelf) → HasSaved [] s → PlanEnds result told.now.status (line_out (string_bytes told.now.line)) (stream O.held O.faults out.old out.new) (stream E.held E.faults err.old err.new) s }
    ensures out_counted { O.faults out.old ≤ O.faults out.new }
    ensures err_counted { E.faults err.old ≤ E.faults err.new }
{
    match put_lines(told.line.as_bytes(), out) {
        Ok(()) => told.status,
        Err(SinkError::Failed) => Status::SinkFault,
        Err(SinkError::NoMemory) => tell_no_memory(err),
    }
}

/// Puts the lines of the text, each with its line feed in a put of its own, up to the first that fails.
fn put_lines<O: Sink>(text: &[u8], out: &mut O) -> Result<(), SinkError>
    ensures all { OnOk result (HasGot text.now (stream O.held O.faults out.old out.new)) }
    ensures front { IsErrOf result SinkError.Failed → HasGotFront text.now (stream O.held O.faults out.old out.new) }
    ensures short { IsErrOf result SinkError.NoMemory → HasGotLines text.now (stream O.held O.faults out.old out.new) }
    ensures counted { O.faults out.old ≤ O.faults out.new }
{
    let mut start = 0;
    while start < text.len() {
        let end = line_end(text, start);
        match out.put(&text[start..end]) {
            Ok(()) => start = end,
            Err(error) => return Err(error),
        }
    }
    Ok(())
}

/// The place behind the next line feed of the text, or its end.
fn line_end(text: &[u8], start: usize) -> usize
    requires { start < length text.now }
    ensures more { start < result }
    ensures inside { result ≤ length text.now }
    ensures ends { EndsLine text.now result }
{
    for i in start..text.len() {
        if text[i] == b'\n' {
            return i + 1;
        }
    }
    text.len()
}

/// Puts the line to `err`, and answers the status that it tells, if that goes well.
pub(crate) fn put_line<E: Sink>(told: &Told, err: &mut E) -> Status
    ensures ends { (out : Stream) (s : Shelf) → HasGotNothing out → HasSaved [] s → PlanEnds result told.now.status (line_err (string_bytes told.now.line)) out (stream E.held E.faults err.old err.new) s }
    ensures counted { E.faults err.old ≤ E.faults err.new }
{
    match err.put(told.line.as_bytes()) {
        Ok(()) => told.status,
        Err(SinkError::Failed) => Status::SinkFault,
        Err(SinkError::NoMemory) => tell_no_memory(err),
    }
}

/// Puts the output to `out`, saves what is to be saved, and puts the line to `err`, in this order, and answers the status that the
/// line tells, if all goes well. With the first that fails it ends.
pub(crate) fn put_run<S: Store, O: Sink, E: Sink>(
    alloc: Global,
    told: &Told,
    output: &[u8],
    saves: Saves<'_>,
    store: &mut S,
    out: &mut O,
    err: &mut E,
) -> Status
    ensures ends { PlanEnds result told.now.status (record { out = output.now; saves = saving (saves_of saves.entry).private_name (saves_of saves.entry).private ++ saving (saves_of saves.entry).audit_name (saves_of saves.entry).audit; err = string_bytes told.now.line }) (stream O.held O.faults out.old out.new) (stream E.held E.faults err.old err.new) (shelf S.contents S.faults store.old store.new) }
    ensures store_counted { S.faults store.old ≤ S.faults store.new }
    ensures out_counted { O.faults out.old ≤ O.faults out.new }
    ensures err_counted { E.faults err.old ≤ E.faults err.new }
{
    match out.put(output) {
        Ok(()) => {}
        Err(SinkError::Failed) => return Status::SinkFault,
        Err(SinkError::NoMemory) => return tell_no_memory(err),
    }
    match save_all(alloc, saves, store, err) {
        None => put_line(told, err),
        Some(status) => status,
    }
}

/// Saves what is to be saved, up to the first that fails, whose line is put. Answers the status with which the command then ends.
fn save_all<S: Store, E: Sink>(
    alloc: Global,
    saves: Saves<'_>,
    store: &mut S,
    err: &mut E,
) -> Option<Status>
    ensures saves { SavesAll result (saving (saves_of saves.entry).private_name (saves_of saves.entry).private ++ saving (saves_of saves.entry).audit_name (saves_of saves.entry).audit) (shelf S.contents S.faults store.old store.new) (stream E.held E.faults err.old err.new) }
    ensures store_counted { S.faults store.old ≤ S.faults store.new }
    ensures err_counted { E.faults err.old ≤ E.faults err.new }
{
    match save_named(alloc, saves.private_name, saves.private, store, err) {
        None => save_named(alloc, saves.audit_name, saves.audit, store, err),
        Some(status) => Some(status),
    }
}

/// Saves bytes, if a file is named for them. Where that fails, its line is put, and the status is answered with which the command
/// ends.
fn save_named<S: Store, E: Sink>(
    alloc: Global,
    name: Option<&str>,
    bytes: &[u8],
    store: &mut S,
    err: &mut E,
) -> Option<Status>
    ensures saves { SavesNamed result (text_of name.entry) bytes.now (shelf S.contents S.faults store.old store.new) (stream E.held E.faults err.old err.new) }
    ensures store_counted { S.faults store.old ≤ S.faults store.new }
    ensures err_counted { E.faults err.old ≤ E.faults err.new }
{
    let name = name?;
    match store.save(name, bytes) {
        Ok(()) => None,
        Err(StoreError::NoMemory) => Some(tell_no_memory(err)),
        Err(StoreError::Missing) => unreachable!(),
        Err(StoreError::Failed) => Some(tell_store_fault(alloc, name, err)),
    }
}

/// Puts the line of a fault of the store to `err`, whether or not that fails, and answers
/// `StoreFault`; where memory for the line is refused, that of want of memory, and `NoMemory`.
pub(crate) fn tell_store_fault<E: Sink>(alloc: Global, name: &str, err: &mut E) -> Status
    ensures status { (result ≡ Status.StoreFault) ⊎ (result ≡ Status.NoMemory) }
    ensures line { result ≡ Status.StoreFault → MayHaveGot (store_fault_line name.now) (stream E.held E.faults err.old err.new) }
    ensures no_memory { result ≡ Status.NoMemory → MayHaveGot no_memory_line (stream E.held E.faults err.old err.new) }
    ensures counted { E.faults err.old ≤ E.faults err.new }
{
    let Ok(line) = lines::store_fault(alloc, name) else {
        return tell_no_memory(err);
    };
    put_anyway(err, line.as_bytes());
    Status::StoreFault
}

/// Puts the line of want of memory to `err`, whether or not that fails, and answers `NoMemory`.
pub(crate) fn tell_no_memory<E: Sink>(err: &mut E) -> Status
    ensures status { result ≡ Status.NoMemory }
    ensures line { MayHaveGot no_memory_line (stream E.held E.faults err.old err.new) }
    ensures counted { E.faults err.old ≤ E.faults err.new }
{
    put_anyway(err, b"no memory\n");
    Status::NoMemory
}

/// Puts the line to `err`, whether or not that fails.
pub(crate) fn put_anyway<E: Sink>(err: &mut E, line: &[u8])
    ensures line { MayHaveGot line.now (stream E.held E.faults err.old err.new) }
    ensures counted { E.faults err.old ≤ E.faults err.new }
{
    match err.put(line) {
        Ok(()) => {}
        Err(SinkError::Failed) => {}
        Err(SinkError::NoMemory) => {}
    }
}
