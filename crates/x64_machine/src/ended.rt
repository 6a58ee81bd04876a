//! The laws of a run's end.

ghost use Rattle.x64_machine.specs.Endings.{EndedStays, FailingKeepsTheRest};

/// Once a run has ended, no step changes anything; and a step that fails changes nothing but the outcome.
#[tactic(auto, unfolding(crate::specs::Run::step))]
pub fn ended_law()
    ensures stays { EndedStays }
    ensures keeps { FailingKeepsTheRest }
{}
