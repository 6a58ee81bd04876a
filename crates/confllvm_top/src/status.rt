//! How a command ended.

ghost use Rattle.std.specs.Prelude.{◌≡◌};
ghost use Rattle.confllvm_top.specs.Statuses.{code_of};

use conf_verify::Rule;
use x64_machine::FaultKind;

/// How a command ended.
#[derive(Clone, Copy, Debug, PartialEq, Eq)]
pub enum Status {
    /// The command has done its work.
    Done,
    /// The bytes break a rule: `at` is a place in the file for V1, else a flat address.
    Refused { rule: Rule, at: u64 },
    /// The words are no command.
    Usage,
    /// The store has failed, or has no file of the name.
    StoreFault,
    /// A sink has failed.
    SinkFault,
    /// A step of a core faulted at the flat address of its program counter.
    Fault { core: u8, at: u64, kind: FaultKind },
    /// The run goes on after all entries of its schedule, `used` of them.
    Steps { used: u64 },
    /// The tape of a class of releases ran out: its releaser has failed.
    TrustFault { class: u64 },
    /// Memory was refused.
    NoMemory,
}

impl Status {
    /// The exit status: 0 for `Done`, 1 for `Refused`, 2 for `Usage`, 3 for `StoreFault`, 4 for
    /// `SinkFault`, 5 for `Fault`, 6 for `Steps`, 8 for `TrustFault` and 9 for `NoMemory`.
    pub fn code(&self) -> u8
        ensures { result ≡ code_of self.now }
    {
        match self {
            Status::Done => 0,
            Status::Refused { .. } => 1,
            Status::Usage => 2,
            Status::StoreFault => 3,
            Status::SinkFault => 4,
            Status::Fault { .. } => 5,
            Status::Steps { .. } => 6,
            Status::TrustFault { .. } => 8,
            Status::NoMemory => 9,
        }
    }
}
