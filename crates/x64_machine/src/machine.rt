//! The machine, and its steps.

ghost use Rattle.std.specs.Prelude.{◌≡◌, ◌+◌, ◌<◌, ◌%◌, ◌≤◌, [], ◌∷◌, false, length, IfOk};
ghost use Rattle.cv_io.specs.Releasers.{classes_by};
ghost use Rattle.x64_machine.specs.Run.{is_running};
ghost use Rattle.x64_machine.specs.Start.{start_state};
ghost use Rattle.x64_machine.specs.Entries.{entries, turns};
ghost use Rattle.x64_machine.specs.Endings.{progress_of};
ghost use Rattle.x64_machine.specs.Following.{HasRun};

use crate::cores::{Core, first_cores};
use crate::memory::{first_segments, first_world};
use crate::outcome::Outcome;
use crate::schedule::{Progress, Schedule};
use crate::step::step_one;
use conf_verify::Verified;
use cv_io::Trusted;
use cv_word::NoMemory;
use std::alloc::Global;
use std::marker::Model;
use trusted_stubs::World;
use two_segments::Segments;

/// A machine that runs a verified image. Contracts see it as the record `State`: the cores, the memory, the gates' world and the
/// outcome.
#[derive(Drop)]
pub struct Machine<'a> {
    cores: Vec<Core>,
    segments: Segments<'a>,
    world: World<'a>,
    outcome: Outcome,
}

impl<'a> Model for Machine<'a> {
    ghost use Rattle.x64_machine.specs.Run.{State};

    ghost Value = { State };

    ghost use Rattle.x64_machine.specs.Fields.{state_of, HasCores};

    ghost view = { state_of };

    ghost invariant = { HasCores };
}

impl<'a> Machine<'a> {
    /// A machine at the start of an image, with the public and the private input, whose private segment begins with
    /// `private_start` from offset 4096 on. That has at least as many bytes as the image's private bytes, and at most as many as
    /// the segment has mapped ones. All memory that a run needs is taken here.
    pub fn new(
        alloc: Global,
        image: &Verified<'a>,
        public_in: &'a [u8],
        private_in: &'a [u8],
        private_start: &[u8],
    ) -> Result<Machine<'a>, NoMemory>
        requires least { length image.now.image.private ≤ length private_start.now }
        requires most { 4096 + length private_start.now ≤ image.now.image.seg_size }
        ensures { IfOk result (λ m. m ≡ start_state image.now.image public_in.now private_in.now private_start.now) }
    {
        let parts = image.parts();
        Ok(Machine {
            cores: first_cores(alloc, parts)?,
            segments: first_segments(alloc, parts, private_start)?,
            world: first_world(alloc, parts, public_in, private_in)?,
            outcome: Outcome::Running,
        })
    }

    /// One step of a core: an instruction, or the gate step where its program counter is a gate's. Nothing changes where the run
    /// has ended, or the core doesn't exist or has ended; a fault changes nothing but the outcome. Ended exactly where the run has
    /// ended after the step. A release asks the releaser of its class; where that fails, the outcome is Tape. It takes no memory
    /// but what a releaser takes for itself.
    pub fn step(&mut self, core: u8, trusted: &mut Vec<Option<Box<dyn Trusted>>>) -> Progress
        ensures after { HasRun (core ∷ []) (classes_by known trusted.old.items) (classes_by known trusted.new.items) self.old self.new }
        ensures progress { result ≡ progress_of self.new.outcome }
        ensures ended { is_running self.old.outcome ≡ false → self.new ≡ self.old }
    {
        match self.outcome {
            Outcome::Running => {
                self.outcome = step_one(
                    &mut self.cores,
                    &mut self.segments,
                    &mut self.world,
                    core,
                    trusted,
                );
                progress(self.outcome)
            }
            _ => Progress::Ended,
        }
    }

    /// All entries of a schedule in order, and the outcome after them. It takes no memory but what a releaser takes for itself.
    pub fn run(&mut self, s: Schedule<'_>, trusted: &mut Vec<Option<Box<dyn Trusted>>>) -> Outcome
        ensures after { HasRun (entries s.entry (length self.old.cores)) (classes_by known trusted.old.items) (classes_by known trusted.new.items) self.old self.new }
        ensures outcome { result ≡ self.new.outcome }
    {
        match s {
            Schedule::Bytes(cores) => self.run_bytes(cores, trusted),
            Schedule::RoundRobin(count) => self.run_in_turn(count, trusted),
        }
        self.outcome
    }

    /// A step for each byte, up to the end of the run.
    fn run_bytes(&mut self, cores: &[u8], trusted: &mut Vec<Option<Box<dyn Trusted>>>)
        ensures { HasRun cores.now (classes_by known trusted.old.items) (classes_by known trusted.new.items) self.old self.new }
    {
        for core in cores {
            match self.step(*core, trusted) {
                Progress::Running => {}
                Progress::Ended => return,
            }
        }
    }

    /// So many steps of the cores in turn, up to the end of the run.
    fn run_in_turn(&mut self, count: u64, trusted: &mut Vec<Option<Box<dyn Trusted>>>)
        ensures { HasRun (turns (length self.old.cores) 0 count) (classes_by known trusted.old.items) (classes_by known trusted.new.items) self.old self.new }
    {
        let n = self.cores.len() as u8;
        let mut core = 0;
        for _turn in 0..count {
            match self.step(core, trusted) {
                Progress::Running => core = next_core(core, n),
                Progress::Ended => return,
            }
        }
    }

    /// The public bytes put out so far.
    pub fn public_out(&self) -> &[u8]
        ensures { result.now ≡ self.now.world.visible.public_output }
    {
        self.world.public_out()
    }

    /// The private bytes put out so far.
    pub fn private_out(&self) -> &[u8]
        ensures { result.now ≡ self.now.world.private_output }
    {
        self.world.private_out()
    }

    /// The audit so far.
    pub fn audit(&self) -> &[u8]
        ensures { result.now ≡ self.now.world.visible.audit }
    {
        self.world.audit()
    }

    /// How the run stands.
    pub fn outcome(&self) -> Outcome
        ensures { result ≡ self.now.outcome }
    {
        self.outcome
    }
}

/// What a step answers.
fn progress(outcome: Outcome) -> Progress
    ensures { result ≡ progress_of outcome }
{
    match outcome {
        Outcome::Running => Progress::Running,
        _ => Progress::Ended,
    }
}

/// The core of `n` whose turn comes after that of `core`.
fn next_core(core: u8, n: u8) -> u8
    requires { core < n }
    ensures next { result ≡ (core + 1) % n }
    ensures below { result < n }
{
    if core + 1 < n { core + 1 } else { 0 }
}
