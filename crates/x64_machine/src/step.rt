//! One step of a core.

ghost use Rattle.std.specs.Prelude.{◌≡◌, ◌<◌, List, None, true, length, slice_get, slice_index_or, slice_set};
ghost use Rattle.std.specs.List.{list_all};
ghost use Rattle.cv_io.specs.Releasers.{classes_by};
ghost use Rattle.cv_word.specs.GateStep.{Releasers, World as Gates, gate_step};
ghost use Rattle.trusted_stubs.specs.Events.{Plays};
ghost use Rattle.x64_alu.specs.CoreStep.{core_step};
ghost use Rattle.x64_machine.specs.Run.{Core as Said, after_gate, after_step, outcome_of_ended, step_core};
ghost use Rattle.x64_machine.specs.Following.{unanswered};
ghost use Rattle.x64_machine.specs.Steps.{running, stepped};

use crate::cores::Core;
use crate::outcome::Outcome;
use cv_io::Trusted;
use cv_word::{CODE_BASE, FaultKind, Gate};
use trusted_stubs::{GateEnd, World, gate_step};
use two_segments::Segments;

/// One step of a core where the run goes on, and the outcome after it.
pub(crate) fn step_one(
    cores: &mut [Core],
    segments: &mut Segments<'_>,
    world: &mut World<'_>,
    core: u8,
    trusted: &mut Vec<Option<Box<dyn Trusted>>>,
) -> Outcome
    ensures { Plays (unanswered result cores.new) (classes_by known trusted.old.items) (classes_by known trusted.new.items) world.old.visible.audit world.new.visible.audit (λ before after. stepped cores.new segments.new world.new result after ≡ step_core (slice_get cores.old core) core (running cores.old segments.old world.old before)) }
{
    let i = core as usize;
    if i >= cores.len() || cores[i].ended {
        return Outcome::Running;
    }
    let at = cores[i].registers.pc;
    if at >= CODE_BASE {
        return step_in_code(cores, segments, core);
    }
    match Gate::at(at) {
        Some(gate) => step_at_gate(gate, cores, segments, world, core, trusted),
        None => Outcome::Fault {
            core,
            at,
            kind: FaultKind::Memory,
        },
    }
}

/// One step of a core that is there: the instruction at its program counter.
fn step_in_code(cores: &mut [Core], segments: &mut Segments<'_>, core: u8) -> Outcome
    requires { core < length cores.old }
    ensures end { (l : List Said) → unanswered result l ≡ None }
    ensures step { (world : Gates) (r : Releasers) (d : Said) → stepped cores.new segments.new world result r ≡ after_step (core_step segments.old (slice_index_or cores.old core d).registers) core (slice_index_or cores.old core d) (running cores.old segments.old world r) }
{
    let one = &mut cores[core as usize];
    let at = one.registers.pc;
    match x64_alu::step(&mut one.registers, segments) {
        None => Outcome::Running,
        Some(kind) => Outcome::Fault { core, at, kind },
    }
}

/// One step of a core that is there: the gate step.
fn step_at_gate(
    gate: Gate,
    cores: &mut [Core],
    segments: &mut Segments<'_>,
    world: &mut World<'_>,
    core: u8,
    trusted: &mut Vec<Option<Box<dyn Trusted>>>,
) -> Outcome
    requires { core < length cores.old }
    ensures { (d : Said) → Plays (unanswered result cores.new) (classes_by known trusted.old.items) (classes_by known trusted.new.items) world.old.visible.audit world.new.visible.audit (λ before after. stepped cores.new segments.new world.new result after ≡ after_gate (gate_step gate (slice_index_or cores.old core d).registers segments.old world.old before) core (slice_index_or cores.old core d) (running cores.old segments.old world.old before)) }
{
    let one = &mut cores[core as usize];
    let at = one.registers.pc;
    match gate_step(gate, &mut one.registers, segments, world, trusted) {
        GateEnd::Next => Outcome::Running,
        GateEnd::CoreEnd => end_core(cores, core),
        GateEnd::Exit(status) => Outcome::Exited { status },
        GateEnd::Fault(kind) => Outcome::Fault { core, at, kind },
        GateEnd::Tape(class) => Outcome::Tape { core, at, class },
    }
}

/// A core ends, and the run with the last one.
fn end_core(cores: &mut [Core], core: u8) -> Outcome
    requires { core < length cores.old }
    ensures cores { (d : Said) → cores.new ≡ slice_set cores.old core (record (slice_index_or cores.old core d) { ended = true }) }
    ensures outcome { result ≡ outcome_of_ended cores.new }
{
    cores[core as usize].ended = true;
    if have_ended(cores) {
        Outcome::Exited { status: 0 }
    } else {
        Outcome::Running
    }
}

/// Whether all cores have ended.
fn have_ended(cores: &[Core]) -> bool
    ensures { result ≡ list_all (λ core. core.ended) cores.now }
{
    for core in cores {
        if !core.ended {
            return false;
        }
    }
    true
}
