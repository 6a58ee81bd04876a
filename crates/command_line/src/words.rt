//! The words of a command line, read as a command.

ghost use Rattle.std.specs.Prelude.{◌≡◌, ◌↔◌, ℕ, IfOk, IsErr, IsErrOf, List, Some, map, slice_get};
ghost use Rattle.std.specs.String.{string_bytes};
ghost use Rattle.clap.specs.Words.{first_value, found_of, kind_of};
ghost use Rattle.clap.specs.declared.error.kind.ErrorKind.TheVariants.{OutOfMemory};
ghost use Rattle.command_line.specs.Commands.{Command as Said, IsCommand, IsNoCommand, files_by, name_of};
ghost use Rattle.command_line.specs.Definitions.{disasm, run, verify};
ghost use Rattle.command_line.specs.Words.{command_of, files_of};
ghost use Rattle.command_line.specs.declared.words.WordsFault.TheVariants.{NoMemory};

use crate::definitions;
use crate::number::number;
use clap::ArgMatches;
use clap::error::ErrorKind;
use std::alloc::{AllocError, Global};
use thiserror::Error;

/// A command line that was read.
#[derive(Clone, Copy, Debug, PartialEq, Eq)]
pub enum Command<'a> {
    /// `verify NAME`
    Verify {
        name: &'a str,
    },
    /// `run NAME STEPS`, with its options
    Run {
        name: &'a str,
        steps: u64,
        files: RunFiles<'a>,
    },
    /// `disasm NAME`
    Disasm {
        name: &'a str,
    },
}

/// The names of the files that the options of `run` give; `None` where an option isn't given.
#[derive(Clone, Copy, Debug, PartialEq, Eq)]
pub struct RunFiles<'a> {
    /// `--schedule FILE`: the order of the cores' steps.
    pub schedule: Option<&'a str>,
    /// `--public FILE`: the public input.
    pub public_input: Option<&'a str>,
    /// `--private FILE`: the private input.
    pub private_input: Option<&'a str>,
    /// `--private-out FILE`: where the private output is saved.
    pub private_output: Option<&'a str>,
    /// `--audit FILE`: where the audit is saved.
    pub audit: Option<&'a str>,
}

impl<'a> Command<'a> {
    /// The name of the file that it loads first.
    pub fn name(&self) -> &'a str
        ensures { result.now ≡ name_of (command_of self.now) }
    {
        match self {
            Command::Verify { name } => name,
            Command::Run { name, .. } => name,
            Command::Disasm { name } => name,
        }
    }
}

/// Why no command was read.
#[derive(Clone, Copy, Debug, PartialEq, Eq, Error)]
pub enum WordsFault {
    /// The words say none.
    #[error("usage fault")]
    Usage,
    /// Memory was refused.
    #[error("no memory")]
    NoMemory,
}

impl From<AllocError> for WordsFault {
    ghost from_gives = { λ _ fault. fault ≡ NoMemory };

    fn from(_error: AllocError) -> WordsFault {
        WordsFault::NoMemory
    }
}

impl From<clap::Error> for WordsFault {
    ghost from_gives = { λ error fault. (fault ≡ NoMemory) ↔ (kind_of error ≡ OutOfMemory) };

    fn from(error: clap::Error) -> WordsFault {
        match error.kind() {
            ErrorKind::OutOfMemory => WordsFault::NoMemory,
            _ => WordsFault::Usage,
        }
    }
}

/// The command that the words say.
pub fn read_command<'a>(alloc: Global, words: &'a [String]) -> Result<Command<'a>, WordsFault>
    // What is answered is what the words say.
    ensures said { IfOk result (λ command. IsCommand (map string_bytes words.now) (command_of command)) }

    // A usage fault comes only where they say none, and there nothing else is answered but want of memory.
    ensures usage { IsErrOf result WordsFault.Usage → IsNoCommand (map string_bytes words.now) }
    ensures none { IsNoCommand (map string_bytes words.now) → IsErr result }
{
    let Some(word) = words.first() else {
        return Err(WordsFault::Usage);
    };
    match word.as_str() {
        "verify" => verify_words(alloc, words),
        "run" => run_words(alloc, words),
        "disasm" => disasm_words(alloc, words),
        _ => Err(WordsFault::Usage),
    }
}

/// The command of words that begin with `verify`.
fn verify_words<'a>(alloc: Global, words: &'a [String]) -> Result<Command<'a>, WordsFault>
    requires { slice_get (map string_bytes words.now) 0 ≡ Some verify.top.name }
    ensures said { IfOk result (λ command. IsCommand (map string_bytes words.now) (command_of command)) }
    ensures usage { IsErrOf result WordsFault.Usage → IsNoCommand (map string_bytes words.now) }
{
    let matches = definitions::verify(alloc)?.try_get_matches_from(words)?;
    let name = matches.get_str("NAME").ok_or(WordsFault::Usage)?;
    Ok(Command::Verify { name })
}

/// The command of words that begin with `run`.
fn run_words<'a>(alloc: Global, words: &'a [String]) -> Result<Command<'a>, WordsFault>
    requires { slice_get (map string_bytes words.now) 0 ≡ Some run.top.name }
    ensures said { IfOk result (λ command. IsCommand (map string_bytes words.now) (command_of command)) }
    ensures usage { IsErrOf result WordsFault.Usage → IsNoCommand (map string_bytes words.now) }
{
    let matches = definitions::run(alloc)?.try_get_matches_from(words)?;
    let name = matches.get_str("NAME").ok_or(WordsFault::Usage)?;
    let digits = matches.get_str("STEPS").ok_or(WordsFault::Usage)?;
    let steps = number(digits).ok_or(WordsFault::Usage)?;
    let files = run_files(&matches);
    Ok(Command::Run { name, steps, files })
}

/// The names of the files that the options give.
fn run_files<'a>(matches: &ArgMatches<'a>) -> RunFiles<'a>
    ensures { files_of result ≡ files_by (first_value (found_of matches.now)) }
{
    RunFiles {
        schedule: matches.get_str("schedule"),
        public_input: matches.get_str("public_input"),
        private_input: matches.get_str("private_input"),
        private_output: matches.get_str("private_output"),
        audit: matches.get_str("audit"),
    }
}

/// The command of words that begin with `disasm`.
fn disasm_words<'a>(alloc: Global, words: &'a [String]) -> Result<Command<'a>, WordsFault>
    requires { slice_get (map string_bytes words.now) 0 ≡ Some disasm.top.name }
    ensures said { IfOk result (λ command. IsCommand (map string_bytes words.now) (command_of command)) }
    ensures usage { IsErrOf result WordsFault.Usage → IsNoCommand (map string_bytes words.now) }
{
    let matches = definitions::disasm(alloc)?.try_get_matches_from(words)?;
    let name = matches.get_str("NAME").ok_or(WordsFault::Usage)?;
    Ok(Command::Disasm { name })
}

/// Words say one command at most.
pub fn one_command()
    ensures { (words : List (List ℕ)) (mine yours : Said)
        → IsCommand words mine → IsCommand words yours → mine ≡ yours }
{}
