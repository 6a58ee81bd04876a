//! The table of the commands' definitions, by which clap reads words.

ghost use Rattle.std.specs.Prelude.{◌≡◌, IfOk, false};
ghost use Rattle.clap.specs.Words.{app_of, rule_of};
ghost use Rattle.command_line.specs.Definitions.{capital, disasm, option, run, verify};

use clap::{Arg, ArgAction, Command};
use std::alloc::{AllocError, Global};

/// `verify NAME`
pub(crate) fn verify<'a>(alloc: Global) -> Result<Command<'a>, AllocError>
    ensures { IfOk result (λ definition. app_of definition ≡ verify) }
{
    Command::new(alloc, "verify").arg(capital(alloc, "NAME"))
}

/// `run NAME STEPS`, with its options
pub(crate) fn run<'a>(alloc: Global) -> Result<Command<'a>, AllocError>
    ensures { IfOk result (λ definition. app_of definition ≡ run) }
{
    Command::new(alloc, "run")
        .arg(capital(alloc, "NAME"))?
        .arg(capital(alloc, "STEPS"))?
        .arg(option(alloc, "schedule", "schedule"))?
        .arg(option(alloc, "public_input", "public"))?
        .arg(option(alloc, "private_input", "private"))?
        .arg(option(alloc, "private_output", "private-out"))?
        .arg(option(alloc, "audit", "audit"))
}

/// `disasm NAME`
pub(crate) fn disasm<'a>(alloc: Global) -> Result<Command<'a>, AllocError>
    ensures { IfOk result (λ definition. app_of definition ≡ disasm) }
{
    Command::new(alloc, "disasm").arg(capital(alloc, "NAME"))
}

/// A capital word: one value, which has to be there.
fn capital<'a>(alloc: Global, id: &'a str) -> Arg<'a>
    ensures rule { rule_of result ≡ capital id.entry.now }
    ensures local { result.global ≡ false }
{
    Arg::new(alloc, id).required(true).action(ArgAction::Set)
}

/// An option, `--` and its long name: one value, which need not be there.
fn option<'a>(alloc: Global, id: &'a str, long: &'a str) -> Arg<'a>
    ensures rule { rule_of result ≡ option id.entry.now long.entry.now }
    ensures local { result.global ≡ false }
{
    Arg::new(alloc, id).long(long).action(ArgAction::Set)
}
