//! What `run` does with the bytes of a file.

ghost use Rattle.std.specs.Prelude.{true, length, ◌≡◌, ◌≤◌, ℕ, List, [], IfOk, OnErr, Option};
ghost use Rattle.std.specs.String.{string_bytes};
ghost use Rattle.conf_verify.specs.Verdict.{IsImage};
ghost use Rattle.command_line.specs.Commands.{Run};
ghost use Rattle.command_line.specs.Words.{files_of};
ghost use Rattle.confllvm_top.specs.Endings.{Does};
ghost use Rattle.confllvm_top.specs.Inputs.{finding_in, loaded_with, saves_of};
ghost use Rattle.confllvm_top.specs.Lines.{refused_line};
ghost use Rattle.confllvm_top.specs.Loading.{Loaded};
ghost use Rattle.confllvm_top.specs.Loads.{LoadTold};
ghost use Rattle.cv_io.specs.Releasers.{classes_by, held_of};
ghost use Rattle.conf_verify.specs.declared.rule.Rule.{Rule as Refusal};
ghost use Rattle.cv_word.specs.GateStep.{Releasers, Tape};
ghost use Rattle.cv_word.specs.Words.{AreBytes};
ghost use Rattle.x64_machine.specs.Entries.{entries};
ghost use Rattle.x64_machine.specs.Following.{HasRun};
ghost use Rattle.x64_machine.specs.Run.{is_running};
ghost use Rattle.x64_machine.specs.Start.{start_state};
ghost use Rattle.confllvm_top.specs.Outsides.{outside};
ghost use Rattle.confllvm_top.specs.Plans.{HasSaved, PlanEnds, Shelf, line_err, shelf};
ghost use Rattle.confllvm_top.specs.Ran.{HasRunWith};
ghost use Rattle.confllvm_top.specs.Running.{outcome_line, plan_of, schedule_of, status_of, used_of};
ghost use Rattle.confllvm_top.specs.Streams.{HasGotNothing, Stream, stream};

use crate::lines;
use crate::loading::{Inputs, LoadFault, load_inputs};
use crate::status::Status;
use crate::telling::{Saves, Told, put_line, put_run, tell_no_memory, tell_store_fault};
use command_line::RunFiles;
use conf_verify::{Rule, Verified, VerifyError, one_verdict, verify};
use cv_io::{Sink, Store, Trusted};
use cv_word::NoMemory;
use std::alloc::Global;
use x64_machine::{Machine, Outcome, Schedule};

/// Verifies the bytes, loads the inputs that are named, and runs the image with these releasers: over the first `steps` bytes of the schedule, or over a
/// round robin of as many entries. Then the public output goes to `out`, the private output and the audit are saved where they are
/// named, and the line that tells how the run ended goes to `err`. Where the bytes are refused, nothing is loaded or run, and their
/// line is all that is put.
pub(crate) fn tell_run<S: Store, O: Sink, E: Sink>(
    alloc: Global,
    bytes: &[u8],
    steps: u64,
    files: RunFiles<'_>,
    store: &mut S,
    out: &mut O,
    err: &mut E,
    trusted: &mut Vec<Option<Box<dyn Trusted>>>,
) -> Status
    ensures does { (name : List ℕ) → Does result (Run name steps (files_of files.entry)) bytes.now (outside S.contents S.faults O.held O.faults E.held E.faults store.old store.new out.old out.new err.old err.new (classes_by known trusted.old.items) (classes_by known trusted.new.items)) }
    ensures held { held_of (classes_by known trusted.new.items) ≡ held_of (classes_by known trusted.old.items) }
    ensures trusted_refused { (rule : Refusal) (at : ℕ) → result ≡ Status.Refused rule at → trusted.new ≡ trusted.old }
    ensures store_counted { S.faults store.old ≤ S.faults store.new }
    ensures out_counted { O.faults out.old ≤ O.faults out.new }
    ensures err_counted { E.faults err.old ≤ E.faults err.new }
{
    one_verdict();
    match verify(alloc, bytes) {
        Ok(image) => {
            ni_laws::accepted_law();
            match load_inputs(alloc, files, store) {
                Ok(inputs) => match run_image(alloc, &image, steps, files, &inputs, trusted) {
                    Ok(ran) => tell_ran(alloc, &ran, files, store, out, err),
                    Err(_error) => tell_no_memory(err),
                },
                Err(fault) => tell_load_fault(alloc, fault, err),
            }
        }
        Err(VerifyError::Refused { rule, at }) => tell_refused(alloc, rule, at, err),
        Err(VerifyError::NoMemory) => tell_no_memory(err),
    }
}

/// Puts the line of an input that was not loaded.
fn tell_load_fault<E: Sink>(alloc: Global, fault: LoadFault<'_>, err: &mut E) -> Status
    ensures told { LoadTold result fault.entry (stream E.held E.faults err.old err.new) }
    ensures counted { E.faults err.old ≤ E.faults err.new }
{
    match fault {
        LoadFault::NoMemory => tell_no_memory(err),
        LoadFault::Store(name) => tell_store_fault(alloc, name, err),
    }
}

/// Puts the line of a refusal.
fn tell_refused<E: Sink>(alloc: Global, rule: Rule, at: u64, err: &mut E) -> Status
    ensures ends { (out : Stream) (s : Shelf) → HasGotNothing out → HasSaved [] s → PlanEnds result (Status.Refused rule at) (line_err (refused_line rule at)) out (stream E.held E.faults err.old err.new) s }
    ensures counted { E.faults err.old ≤ E.faults err.new }
{
    let Ok(line) = lines::refused(alloc, rule, at) else {
        return tell_no_memory(err);
    };
    let status = Status::Refused { rule, at };
    put_line(&Told { status, line }, err)
}

/// A machine that has run, and how many entries its schedule had.
#[derive(Drop)]
struct Ran<'a> {
    machine: Machine<'a>,
    used: u64,
}

/// Puts and saves what a machine that has run leaves, and the line that tells how it ended.
fn tell_ran<S: Store, O: Sink, E: Sink>(
    alloc: Global,
    ran: &Ran<'_>,
    files: RunFiles<'_>,
    store: &mut S,
    out: &mut O,
    err: &mut E,
) -> Status
    ensures ends { (r : Releasers) → PlanEnds result (status_of ran.now.used ran.now.machine.outcome) (plan_of (files_of files.entry) ran.now.used (finding_in ran.now.machine r)) (stream O.held O.faults out.old out.new) (stream E.held E.faults err.old err.new) (shelf S.contents S.faults store.old store.new) }
    ensures store_counted { S.faults store.old ≤ S.faults store.new }
    ensures out_counted { O.faults out.old ≤ O.faults out.new }
    ensures err_counted { E.faults err.old ≤ E.faults err.new }
{
    let Ok(told) = told_of(alloc, ran.machine.outcome(), ran.used) else {
        return tell_no_memory(err);
    };
    put_run(
        alloc,
        &told,
        ran.machine.public_out(),
        saves(files, &ran.machine),
        store,
        out,
        err,
    )
}

/// Runs the image with these inputs, and asks the releasers. Where memory is refused, nobody is asked.
fn run_image<'a>(
    alloc: Global,
    image: &Verified<'a>,
    steps: u64,
    files: RunFiles<'_>,
    inputs: &'a Inputs,
    trusted: &mut Vec<Option<Box<dyn Trusted>>>,
) -> Result<Ran<'a>, NoMemory>
    ensures runs { IfOk result (λ ran. (bytes : List ℕ) → IsImage bytes image.now.image → HasRunWith (loaded_with bytes inputs.now) steps (files_of files.entry) ran.machine (classes_by known trusted.old.items) (classes_by known trusted.new.items)) }
    ensures used { IfOk result (λ ran. (bytes : List ℕ) (tapes : List (Option Tape)) → ran.used ≡ used_of (files_of files.entry) steps (loaded_with bytes inputs.now tapes)) }
    ensures held { held_of (classes_by known trusted.new.items) ≡ held_of (classes_by known trusted.old.items) }
    ensures unasked { OnErr result (trusted.new ≡ trusted.old) }
{
    let private = image.parts().private;
    let mut machine = start_machine(alloc, image, &inputs.public, &inputs.private, private)?;
    let (schedule, used) = schedule_of(files, steps, &inputs.schedule);
    let _outcome = run_machine(&mut machine, schedule, trusted);
    are_bytes(machine.audit());
    Ok(Ran { machine, used })
}

/// Runs a machine whose run hasn't ended, and asks the releasers.
fn run_machine(
    machine: &mut Machine<'_>,
    schedule: Schedule<'_>,
    trusted: &mut Vec<Option<Box<dyn Trusted>>>,
) -> Outcome
    requires { is_running machine.old.outcome ≡ true }
    ensures after { HasRun (entries schedule.entry (length machine.old.cores)) (classes_by known trusted.old.items) (classes_by known trusted.new.items) machine.old machine.new }
    ensures outcome { result ≡ machine.new.outcome }
{
    machine.run(schedule, trusted)
}

/// What a slice holds is bytes, as the laws ask.
fn are_bytes(bytes: &[u8])
    ensures { AreBytes bytes.now }
{
    let _bytes = bytes;
}

/// A machine at the start of the image, with both inputs and the image's private bytes.
fn start_machine<'a>(
    alloc: Global,
    image: &Verified<'a>,
    public: &'a [u8],
    private: &'a [u8],
    start: &[u8],
) -> Result<Machine<'a>, NoMemory>
    requires { start.now ≡ image.now.image.private }
    ensures machine { IfOk result (λ m. m ≡ start_state image.now.image public.now private.now start.now) }
    ensures bytes { IfOk result (λ m. AreBytes public.now × AreBytes private.now × AreBytes start.now) }
{
    let _parts = image.parts();
    Machine::new(alloc, image, public, private, start)
}

/// The schedule of a run and how many entries it has: the first bytes of a file, if one is named, else a round robin.
fn schedule_of<'a>(files: RunFiles<'_>, steps: u64, bytes: &'a [u8]) -> (Schedule<'a>, u64)
    ensures entries { (n : ℕ) (loaded : Loaded) → loaded.schedule ≡ bytes.now → entries result.0 n ≡ schedule_of (files_of files.entry) steps loaded n }
    ensures used { (loaded : Loaded) → loaded.schedule ≡ bytes.now → result.1 ≡ used_of (files_of files.entry) steps loaded }
{
    match files.schedule {
        Some(_name) => {
            let used = steps.min(bytes.len() as u64);
            (Schedule::Bytes(&bytes[..used as usize]), used)
        }
        None => (Schedule::RoundRobin(steps), steps),
    }
}

/// What a machine leaves to save, each with the name of its file if one is named.
fn saves<'a>(files: RunFiles<'a>, machine: &'a Machine<'_>) -> Saves<'a>
    ensures { saves_of result ≡ record { private_name = (files_of files.entry).private_output; private = machine.now.world.private_output; audit_name = (files_of files.entry).audit; audit = machine.now.world.visible.audit } }
{
    Saves {
        private_name: files.private_output,
        private: machine.private_out(),
        audit_name: files.audit,
        audit: machine.audit(),
    }
}

/// The status of a run with this outcome over `used` entries, and its line.
fn told_of(alloc: Global, outcome: Outcome, used: u64) -> Result<Told, NoMemory>
    ensures status { IfOk result (λ told. told.status ≡ status_of used outcome) }
    ensures line { IfOk result (λ told. string_bytes told.line ≡ outcome_line used outcome) }
{
    match outcome {
        Outcome::Running => {
            let line = lines::steps(alloc, used)?;
            let status = Status::Steps { used };
            Ok(Told { status, line })
        }
        Outcome::Exited { status } => {
            let line = lines::exit(alloc, status)?;
            let status = Status::Done;
            Ok(Told { status, line })
        }
        Outcome::Fault { core, at, kind } => {
            let line = lines::fault(alloc, core, at, kind)?;
            let status = Status::Fault { core, at, kind };
            Ok(Told { status, line })
        }
        Outcome::Tape { class, .. } => {
            let line = lines::trust_fault(alloc, class)?;
            let status = Status::TrustFault { class };
            Ok(Told { status, line })
        }
    }
}
