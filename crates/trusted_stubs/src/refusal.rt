//! Why a gate refuses.

ghost use Rattle.std.specs.Prelude.{◌≡◌, ◌&&◌};
ghost use Rattle.cv_io.specs.Releasers.{classes_by, held_of};
ghost use Rattle.cv_word.specs.GateStep.{Releasers, is_good_range, lacks_releaser, passes_limit, reads, refusal, writes};

use crate::world::{LONGEST_RELEASE, World};
use cv_io::{Trusted, is_held};
use cv_word::{Arguments, FaultKind, Gate};
use two_segments::Segments;

/// Why a gate refuses: Range, then OutLimit, then NoReleaser.
#[tactic(auto, unfolding(cv_word::specs::GateStep::refusal))]
pub(crate) fn refusal(
    gate: Gate,
    a: Arguments,
    segs: &Segments<'_>,
    world: &World<'_>,
    trusted: &Vec<Option<Box<dyn Trusted>>>,
) -> Option<FaultKind>
    ensures { (r : Releasers) → r.held ≡ held_of (classes_by known trusted.now.items) → result ≡ refusal segs.now.size gate a world.now r }
{
    if !has_good_ranges(gate, a, segs) {
        Some(FaultKind::Range)
    } else if passes_limit(gate, a, world) {
        Some(FaultKind::OutLimit)
    } else if lacks_releaser(gate, a, trusted) {
        Some(FaultKind::NoReleaser)
    } else {
        None
    }
}

/// Whether the ranges that a gate reads and may write are good.
fn has_good_ranges(gate: Gate, a: Arguments, segs: &Segments<'_>) -> bool
    ensures { result ≡ (is_good_range segs.now.size (reads gate a) && is_good_range segs.now.size (writes gate a)) }
{
    match gate {
        Gate::PubIn => segs.is_good(a.first, a.second),
        Gate::PubOut => segs.is_good(a.first, a.second),
        Gate::PrivIn => segs.is_good(a.first, a.second),
        Gate::PrivOut => segs.is_good(a.first, a.second),
        Gate::Release => both(
            segs.is_good(a.first, a.third),
            segs.is_good(a.second, a.third),
        ),
        _ => true,
    }
}

/// Whether both are so.
fn both(a: bool, b: bool) -> bool
    ensures { result ≡ (a && b) }
{
    a && b
}

/// Whether an output or the audit would pass its limit, or a release has too many bytes.
fn passes_limit(gate: Gate, a: Arguments, world: &World<'_>) -> bool
    ensures { result ≡ passes_limit gate a world.now }
{
    match gate {
        Gate::PubOut => world.public_output.is_passed_by(a.second),
        Gate::PrivOut => world.private_output.is_passed_by(a.second),
        Gate::PrivPut => world.private_output.is_passed_by(8),
        Gate::Release => a.third > LONGEST_RELEASE as u64 || world.audit.is_passed_by(8 + a.third),
        _ => false,
    }
}

/// Whether a release is asked of a class that has no releaser.
fn lacks_releaser(gate: Gate, a: Arguments, trusted: &Vec<Option<Box<dyn Trusted>>>) -> bool
    ensures { (r : Releasers) → r.held ≡ held_of (classes_by known trusted.now.items) → result ≡ lacks_releaser gate a r }
{
    match gate {
        Gate::Release => !is_held(trusted, a.fourth),
        _ => false,
    }
}
