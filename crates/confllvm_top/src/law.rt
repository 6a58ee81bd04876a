//! The law of the commands' answers.

ghost use Rattle.std.specs.Prelude.{◌≡◌};
ghost use Rattle.confllvm_top.specs.Answers.{Answers};
ghost use Rattle.command_line.specs.Commands.{Command};
ghost use Rattle.confllvm_top.specs.Loading.{Loaded};

use crate::status::Status;
use conf_verify::{one_listing, one_verdict};

/// A command has one answer to the bytes of its file.
pub fn one_answer()
    ensures { (command : Command) (loaded : Loaded) (mine yours : Status) → Answers mine command loaded → Answers yours command loaded → mine ≡ yours }
{
    one_verdict();
    one_listing();
}
