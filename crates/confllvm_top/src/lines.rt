//! The lines that commands put, as text.

ghost use Rattle.std.specs.Prelude.{◌≡◌, IfOk};
ghost use Rattle.std.specs.String.{string_bytes};
ghost use Rattle.conf_verify.specs.Rules.{rule_number};
ghost use Rattle.confllvm_top.specs.Lines.{accepted_line, refused_line, fault_line, exit_line, kind_word, steps_line, store_fault_line, trust_fault_line};

use conf_verify::{Counts, Rule};
use std::alloc::{AllocError, Global};
use x64_machine::FaultKind;

/// `accepted procedures P items I`
pub(crate) fn accepted(alloc: Global, counts: Counts) -> Result<String, AllocError>
    ensures { IfOk result (λ line. string_bytes line ≡ accepted_line counts.procedures counts.items) }
{
    let procedures = counts.procedures;
    let items = counts.items;
    format!(in alloc; "accepted procedures {procedures} items {items}\n")
}

/// `refused V1 at place P`, or for another rule `refused RULE at 0xA`
pub(crate) fn refused(alloc: Global, rule: Rule, at: u64) -> Result<String, AllocError>
    ensures { IfOk result (λ line. string_bytes line ≡ refused_line rule at) }
{
    let number = number_of(rule);
    if number == 1 {
        format!(in alloc; "refused V1 at place {at}\n")
    } else {
        format!(in alloc; "refused V{number} at 0x{at:x}\n")
    }
}

/// `fault core C at 0xA KIND`
pub(crate) fn fault(alloc: Global, core: u8, at: u64, kind: FaultKind) -> Result<String, AllocError>
    ensures { IfOk result (λ line. string_bytes line ≡ fault_line core at kind) }
{
    let kind = word_of(kind);
    format!(in alloc; "fault core {core} at 0x{at:x} {kind}\n")
}

/// `steps N`
pub(crate) fn steps(alloc: Global, used: u64) -> Result<String, AllocError>
    ensures { IfOk result (λ line. string_bytes line ≡ steps_line used) }
{
    format!(in alloc; "steps {used}\n")
}

/// `exit S`
pub(crate) fn exit(alloc: Global, status: i32) -> Result<String, AllocError>
    ensures { IfOk result (λ line. string_bytes line ≡ exit_line status) }
{
    format!(in alloc; "exit {status}\n")
}

/// `trust fault class K`
pub(crate) fn trust_fault(alloc: Global, class: u64) -> Result<String, AllocError>
    ensures { IfOk result (λ line. string_bytes line ≡ trust_fault_line class) }
{
    format!(in alloc; "trust fault class {class}\n")
}

/// `store fault NAME`
pub(crate) fn store_fault(alloc: Global, name: &str) -> Result<String, AllocError>
    ensures { IfOk result (λ line. string_bytes line ≡ store_fault_line name.now) }
{
    format!(in alloc; "store fault {name}\n")
}

/// The word for a kind of fault.
fn word_of(kind: FaultKind) -> &'static str
    ensures { result.now ≡ kind_word kind }
{
    match kind {
        FaultKind::Memory => "Memory",
        FaultKind::Undefined => "Undefined",
        FaultKind::Divide => "Divide",
        FaultKind::GateReturn => "GateReturn",
        FaultKind::Range => "Range",
        FaultKind::OutLimit => "OutLimit",
        FaultKind::NoReleaser => "NoReleaser",
    }
}

/// The number in a rule's name.
fn number_of(rule: Rule) -> u8
    ensures { result ≡ rule_number rule }
{
    match rule {
        Rule::V1 => 1,
        Rule::V2 => 2,
        Rule::V3 => 3,
        Rule::V4 => 4,
        Rule::V5 => 5,
        Rule::V6 => 6,
        Rule::V7 => 7,
        Rule::V8 => 8,
        Rule::V9 => 9,
        Rule::V10 => 10,
        Rule::V11 => 11,
        Rule::V12 => 12,
        Rule::V13 => 13,
        Rule::V14 => 14,
        Rule::V15 => 15,
        Rule::V16 => 16,
    }
}
