//! The gate step.

ghost use Rattle.std.specs.Prelude.{◌≡◌, ◌≢◌, ◌%◌, ◌<◌, ◌^◌, IfOk, None, true};
ghost use Rattle.std.specs.Int.{w32, cast_signed};
ghost use Rattle.cv_io.specs.Releasers.{classes_by, held_of};
ghost use Rattle.cv_word.specs.GateStep.{Releasers, after_work, arguments_of, gate_step, read_from, reads, refusal, returned, stands_in_code, work, writes};
ghost use Rattle.trusted_stubs.specs.Answers.{GateStepsTo, IsUnrefused, changed, failure_of, from_place, request_of};
ghost use Rattle.trusted_stubs.specs.Events.{Plays};

use crate::end::GateEnd;
use crate::refusal::refusal;
use crate::release::release;
use crate::work::{
    alloc_private, alloc_public, free_private, free_public, get_private, put_private, read_private,
    read_public, write_private, write_public,
};
use crate::world::World;
use cv_io::Trusted;
use cv_word::{Arguments, CODE_BASE, FaultKind, Gate, Registers, result_bit};
use magic_words::return_word;
use two_segments::Segments;
use x64_decode::{Seg, Width};

/// The registers that the gate step reads and writes, by their numbers.
const RAX: usize = 0;

const RCX: usize = 1;

const RDX: usize = 2;

const RSP: usize = 4;

const RSI: usize = 6;

const RDI: usize = 7;

/// The gate step of a core: the gate does its work, and the core goes on behind the return word at which it waits. A fault
/// changes nothing: Memory where the address at rsp is unmapped, GateReturn where the gate's return word doesn't stand there,
/// Range for a range that isn't mapped, OutLimit for an output that would pass its limit, and NoReleaser for a class without a
/// releaser, the first of these.
///
/// A release asks the releaser of its class once. `Tape` comes only where that releaser's count of faults rose, and its
/// `failed_len` is then the length asked, which is rdx; nothing else changes. With any other end each count is as before.
///
/// It takes no memory but what a releaser takes itself.
pub fn gate_step(
    gate: Gate,
    regs: &mut Registers,
    segs: &mut Segments<'_>,
    world: &mut World<'_>,
    trusted: &mut Vec<Option<Box<dyn Trusted>>>,
) -> GateEnd
    ensures { Plays (failure_of result regs.old) (classes_by known trusted.old.items) (classes_by known trusted.new.items) world.old.visible.audit world.new.visible.audit (λ before after. GateStepsTo (gate_step gate regs.old segs.old world.old before) result (changed regs.old segs.old world.old before) (changed regs.new segs.new world.new after)) }
{
    let at = match waiting_place(gate, regs, segs, world) {
        Ok(at) => at,
        Err(kind) => return GateEnd::Fault(kind),
    };
    let a = arguments(regs);
    match refusal(gate, a, segs, world, trusted) {
        Some(kind) => GateEnd::Fault(kind),
        None => do_work(gate, a, at + 8, regs, segs, world, trusted),
    }
}

/// The flat address at which the core waits, where the gate's return word stands.
#[tactic(auto, unfolding(cv_word::specs::GateStep::gate_step, two_segments::specs::Access::loaded))]
fn waiting_place(
    gate: Gate,
    regs: &Registers,
    segs: &Segments<'_>,
    world: &World<'_>,
) -> Result<u64, FaultKind>
    ensures place { (r : Releasers) → gate_step gate regs.now segs.now world.now r ≡ from_place result gate regs.now segs.now world.now r }
    ensures small { IfOk result (λ at. at < 2 ^ 32) }
{
    let top = (regs.r[RSP] % 0x1_0000_0000) as u32;
    let Some(at) = segs.read(Seg::Fs, top, Width::B4) else {
        return Err(FaultKind::Memory);
    };
    if stands(
        segs,
        return_word(result_bit(gate.bits()), world.prefix()),
        at,
    ) {
        Ok(at)
    } else {
        Err(FaultKind::GateReturn)
    }
}

/// Whether a word stands in the code, at a flat address.
#[tactic(auto, unfolding(cv_word::specs::GateStep::stands_in_code))]
fn stands(segs: &Segments<'_>, word: [u8; 8], at: u64) -> bool
    ensures value { result ≡ stands_in_code segs.now word at }
    ensures small { result ≡ true → at < 2 ^ 32 }
{
    let code = segs.code();
    if CODE_BASE <= at && at - CODE_BASE + 8 <= code.len() as u64 {
        let place = (at - CODE_BASE) as usize;
        &code[place..place + 8] == word.as_slice()
    } else {
        false
    }
}

/// What the caller passes.
fn arguments(regs: &Registers) -> Arguments
    ensures { result ≡ arguments_of regs.now }
{
    Arguments {
        first: regs.r[RDI],
        second: regs.r[RSI],
        third: regs.r[RDX],
        fourth: regs.r[RCX],
    }
}

/// Does the work of a gate that doesn't refuse. The core goes on at `next`.
fn do_work(
    gate: Gate,
    a: Arguments,
    next: u64,
    regs: &mut Registers,
    segs: &mut Segments<'_>,
    world: &mut World<'_>,
    trusted: &mut Vec<Option<Box<dyn Trusted>>>,
) -> GateEnd
    requires { (r : Releasers) → r.held ≡ held_of (classes_by known trusted.old.items) → refusal segs.old.size gate a world.old r ≡ None }
    ensures { Plays (request_of result a) (classes_by known trusted.old.items) (classes_by known trusted.new.items) world.old.visible.audit world.new.visible.audit (λ before after. GateStepsTo (after_work (work gate a (read_from segs.old (reads gate a)) world.old before) next (writes gate a) regs.old segs.old) result (changed regs.old segs.old world.old before) (changed regs.new segs.new world.new after)) }
{
    match gate {
        Gate::Release => match release(a, segs, world, trusted) {
            Ok(answer) => go_on(answer, next, regs),
            Err(_fault) => GateEnd::Tape(a.fourth),
        },
        _ => do_other(gate, a, next, regs, segs, world),
    }
}

/// Does the work of a gate other than Release.
fn do_other(
    gate: Gate,
    a: Arguments,
    next: u64,
    regs: &mut Registers,
    segs: &mut Segments<'_>,
    world: &mut World<'_>,
) -> GateEnd
    requires other { gate ≢ Gate.Release }
    requires served { IsUnrefused segs.old.size gate a world.old }
    ensures { (r : Releasers) → GateStepsTo (after_work (work gate a (read_from segs.old (reads gate a)) world.old r) next (writes gate a) regs.old segs.old) result (changed regs.old segs.old world.old r) (changed regs.new segs.new world.new r) }
{
    match gate {
        Gate::Exit => exit(a.first),
        Gate::CoreEnd => GateEnd::CoreEnd,
        Gate::PubIn => go_on(read_public(a, segs, world), next, regs),
        Gate::PubOut => go_on(write_public(a, segs, world), next, regs),
        Gate::PrivIn => go_on(read_private(a, segs, world), next, regs),
        Gate::PrivOut => go_on(write_private(a, segs, world), next, regs),
        Gate::PrivGet => go_on(get_private(world), next, regs),
        Gate::PrivPut => go_on(put_private(a, world), next, regs),
        Gate::PubAlloc => go_on(alloc_public(a, world), next, regs),
        Gate::PrivAlloc => go_on(alloc_private(a, world), next, regs),
        Gate::PubFree => go_on(free_public(a, world), next, regs),
        Gate::PrivFree => go_on(free_private(a, world), next, regs),
        Gate::Release => unreachable!(),
    }
}

/// The run ends, with the low 32 bits as a signed number.
fn exit(word: u64) -> GateEnd
    ensures { result ≡ GateEnd.Exit (cast_signed w32 (word % 2 ^ 32)) }
{
    GateEnd::Exit(((word % 0x1_0000_0000) as u32).cast_signed())
}

/// The core goes on at `next`, with an answer in rax.
fn go_on(answer: u64, next: u64, regs: &mut Registers) -> GateEnd
    ensures end { result ≡ GateEnd.Next }
    ensures registers { regs.new ≡ returned answer next regs.old }
{
    let top = regs.r[RSP].wrapping_add(8);
    regs.r[RAX] = answer;
    regs.r[RSP] = top;
    regs.pc = next;
    GateEnd::Next
}
