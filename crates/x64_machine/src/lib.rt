//! The machine: cores over one memory, under a schedule.
//!
//! `Machine::new` is the first configuration of a verified image, `Machine::step` one step of a core and
//! `Machine::run` the steps of a whole schedule, exactly as `start`, `step` and `run` of `specs/` say,
//! with what the releasers told as the tapes. Nothing but `Machine::new` takes memory, and what a releaser takes for itself.
#![tactic(auto)]

mod cores;
mod ended;
mod machine;
mod memory;
mod outcome;
mod schedule;
mod step;

pub use cv_word::FaultKind;
pub use ended::ended_law;
pub use machine::Machine;
pub use outcome::Outcome;
pub use schedule::{Progress, Schedule};
